//! Terms: formulas whose names stand for places and whose binders bind one range each, as they are written and in narrow form;
//! and the problems of choices, definitions and facts that terms make up.
#![tactic(auto)]

mod laws;
mod operators;
mod problem;
mod shared;
mod term;

pub use laws::nodes_are_a_term_and_those_of_its_parts;
pub use operators::{Binary, Binder, Infinite, Many, Side, Unary};
pub use problem::{Choice, Choices, Problem, Terms};
pub use shared::{SharedType, SharedValue};
pub use term::{Head, Path, Term};
