//! The units of a text as they are written: contexts, machines, scopes and queries.

use crate::ast::{Ast, Identifier, Identifiers};
use crate::query::Queries;
use eb_names::Name;
use sqlite_items::Items;

/// A label without its `@`, and the place of that `@` in the text, in bytes.
#[derive(Debug, Drop)]
pub struct Label {
    pub name: Name,
    pub place: u32,
}

/// A predicate behind its label, and whether the word `theorem` stands before that.
#[derive(Drop)]
pub struct LabelledPredicate {
    pub is_theorem: bool,
    pub label: Label,
    pub predicate: Ast,
}

/// Labelled predicates in the order of the text.
pub type LabelledPredicates = Items<LabelledPredicate>;

/// A part of a context between its name and `end`.
#[derive(Drop)]
pub enum ContextClause {
    /// `sets`: carrier sets are declared.
    Sets(Identifiers),
    Constants(Identifiers),
    Axioms(LabelledPredicates),
}

/// A context, the contexts behind its `extends`, none without that word, and its clauses.
#[derive(Drop)]
pub struct Context {
    pub name: Identifier,
    pub extends: Identifiers,
    pub clauses: Items<ContextClause>,
}

/// Names behind a word, and the place of that word in the text, in bytes.
#[derive(Debug, Drop)]
pub struct NamesClause {
    pub place: u32,
    pub names: Identifiers,
}

/// Predicates behind a word, and the place of that word in the text, in bytes.
#[derive(Drop)]
pub struct PredicatesClause {
    pub place: u32,
    pub predicates: LabelledPredicates,
}

/// The word before `event`.
#[derive(Clone, Copy, Debug, PartialEq, Eq)]
pub enum Convergence {
    Ordinary,
    Convergent,
    Anticipated,
}

/// The events of the refined machine behind `refines` or `extends`.
#[derive(Debug, Drop)]
pub enum Inheritance {
    Refines(NamesClause),
    Extends(NamesClause),
}

/// How an event changes variables.
#[derive(Drop)]
pub enum Assignment {
    /// `x, y := E, F`
    BecomesEqual(Identifiers, Items<Ast>),
    /// `f(E) := F`
    BecomesEqualAt(Identifier, Ast, Ast),
    /// `x :: S`
    BecomesMember(Identifier, Ast),
    /// `x, y :| P`
    BecomesSuchThat(Identifiers, Ast),
}

/// An assignment behind its label.
#[derive(Drop)]
pub struct Action {
    pub label: Label,
    pub assignment: Assignment,
}

/// The assignments of an event, in the order of the text.
pub type Actions = Items<Action>;

/// An event of a machine.
#[derive(Drop)]
pub struct Event {
    pub convergence: Option<Convergence>,
    pub name: Identifier,
    pub inheritance: Option<Inheritance>,
    /// `any`
    pub parameters: Option<NamesClause>,
    /// `where` or `when`
    pub guards: Option<PredicatesClause>,
    /// `with`
    pub witnesses: Option<PredicatesClause>,
    /// The actions behind `then` or `begin`, none without that word.
    pub actions: Actions,
}

/// The events of a machine, in the order of the text.
pub type Events = Items<Event>;

/// A part of a machine between its head and `end`.
#[derive(Drop)]
pub enum MachineClause {
    Variables(Identifiers),
    Invariants(LabelledPredicates),
    Variant(Option<Label>, Ast),
    Events(Events),
}

/// The machine behind `refines`, and the place of that word in the text, in bytes.
#[derive(Debug, Drop)]
pub struct Refinement {
    pub place: u32,
    pub machine: Identifier,
}

/// A machine with the place of the word `machine` in the text, in bytes, the contexts behind its `sees`, none without that
/// word, and its clauses.
#[derive(Drop)]
pub struct Machine {
    pub place: u32,
    pub name: Identifier,
    pub refines: Option<Refinement>,
    pub sees: Identifiers,
    pub clauses: Items<MachineClause>,
}

/// A line of a scope. The first number of `Integers` and `Depth` is the place of their word in the text, in bytes.
#[derive(Debug, Drop)]
pub enum ScopeSetting {
    /// `int lo..hi`: the least and the greatest integer.
    Integers(u32, i64, i64),
    /// `size S n`: the number of atoms of a carrier set.
    Size(Identifier, i64),
    /// `depth n`: the greatest number of events of a test.
    Depth(u32, i64),
}

/// The settings of a scope, and the place of the word `scope` in the text, in bytes.
#[derive(Debug, Drop)]
pub struct ScopeBlock {
    pub place: u32,
    pub settings: Items<ScopeSetting>,
}

/// What a text is made of.
#[derive(Drop)]
pub enum EbUnit {
    Context(Context),
    Machine(Machine),
    Scope(ScopeBlock),
    Queries(Queries),
}

/// The units of a text, in its order.
pub type Units = Items<EbUnit>;
