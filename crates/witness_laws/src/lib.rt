//! What the solutions of a query's problem are.
//!
//! The definitions stand below: what a solution is in `eb_meaning` (`Problems`), what a witness is in `cbc_query` (`Problems`).
#![tactic(auto)]

mod laws;

pub use laws::solutions_are_witnesses;
