//! What terms mean under values of the choices, and which valuations solve a problem.
//!
//! The definitions stand in `specs/`: `Meaning` (the value and the truth of a term, and what the right side of a membership has,
//! over what `eb_operations` says of values) and `Problems` (valuations and solutions).
#![tactic(auto)]

mod evaluation;
mod laws;
mod leaves;
mod operands;
mod problems;
mod setting;

pub use eb_operations::Truth3;
pub use laws::{
    facts_over_values_have_their_own_truth, terms_look_at_their_references_alone,
    typed_terms_have_values_of_their_types,
};
pub use problems::{Env, Slots, eval, fact_at, slots_of, truth};
