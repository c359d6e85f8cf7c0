//! Rules of propagation: what a formula may be by what its parts may be, and what a part may be by the whole and the other part.
//!
//! The definitions stand in `specs/`: `Rules` has all rows, of which those of connectives, of definedness, of comparisons, of pairs
//! and of integers stand in files of their own; `Outcomes` says what comes of a formula.
#![tactic(auto)]

mod comparisons;
mod connective;
mod connectives;
mod definedness;
mod integers;
mod laws;
mod pairs;
mod rule;
mod rules;

pub use connective::Connective;
pub use laws::{rules_are_sound, rules_have_the_meaning};
pub use rule::{BinaryRule, UnaryRule};
pub use rules::{down_binary, down_unary, up_binary, up_unary};
