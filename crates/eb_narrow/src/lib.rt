//! Narrow form: the same formulas with few operators.
//!
//! The definitions stand in `specs/`: `Narrow` and `Groups` (the groups of its operators).
#![tactic(auto)]

mod counts;
mod groups;
mod kinds;
mod laws;
mod narrowing;
mod sets;
mod written;

pub use counts::narrowed_nodes;
pub use groups::{Group, group_of};
pub use laws::{narrow_form_goes_by_the_types, narrow_form_keeps_the_meaning};
pub use narrowing::narrow;
