//! The terms of typed formulas are typed.
//!
//! The definitions stand in `specs/`: `Settings` (what makes lowered terms typed) and `Models` (the formulas of a model).
#![tactic(auto)]

mod laws;

pub use laws::{formulas_of_models_have_typed_terms, lowered_terms_are_typed};
