//! The answers to what a text asks, and what is printed for it.
//!
//! The definitions stand in `specs/Answers`. What only private functions cite stands in `specs/steps`.
#![tactic(auto)]

mod answer;
mod answering;
mod laws;
mod status;

pub use answering::{checked, solved};
pub use laws::{accepted_text_refutes_axioms, printed_trees_have_their_verdict};
pub use status::Status;
