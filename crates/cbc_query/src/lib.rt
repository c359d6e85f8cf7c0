//! The problem that a query asks about a model, the limits that it keeps, and its notes.
//!
//! The definitions stand in `specs/`: `Parts` (what a model declares and says), `Settings` (what its formulas stand in), `Problems`,
//! `Limits`, `Notes` and `Faults`.
#![tactic(auto)]

mod bounded;
mod distinct;
mod fault;
mod known;
mod large;
mod names;
mod note;
mod noting;
mod parts;
mod problem;
mod told;

pub use fault::QueryFault;
pub use note::Note;
pub use noting::axioms_notes;
pub use parts::carriers;
pub use problem::axioms_problem;
