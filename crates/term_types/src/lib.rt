//! The type of a term, by the table of types.
//!
//! `specs/Types` says which type a term has.
#![tactic(auto)]

mod laws;
mod types;

pub use laws::types_are_those_of_the_typing;
pub use types::{element_type, type_of, type_or_any};
