//! The problem of a query is typed.
//!
//! The definitions stand below: what a typed problem is in `occurrences` (`Typed`), the problem of the axioms in `cbc_query`
//! (`Problems`).
#![tactic(auto)]

mod laws;

pub use laws::problems_of_axioms_are_typed;
