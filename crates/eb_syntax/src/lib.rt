//! Formulas, units and queries as they are written: one variant or one operator for each production of the grammar, after
//! Métayer and Voisin, "The Event-B Mathematical Language" (2009).
#![tactic(auto)]

mod ast;
mod query;
mod units;

pub use ast::{
    Ast, Binder, Bound, Call, Constant, Identifier, Identifiers, Mark, Node, Operator, Pattern,
    Prefix, Quantifier,
};
pub use query::{Goal, Queries, Query};
pub use units::{
    Action, Actions, Assignment, Context, ContextClause, Convergence, EbUnit, Event, Events,
    Inheritance, Label, LabelledPredicate, LabelledPredicates, Machine, MachineClause, NamesClause,
    PredicatesClause, Refinement, ScopeBlock, ScopeSetting, Units,
};
