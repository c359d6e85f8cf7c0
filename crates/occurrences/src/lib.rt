//! Where formulas of a problem occur, what gives each a domain, what comes of each, and which a rule narrows.
//!
//! `specs/Occurrences` says which occurrences a problem has, `specs/Stores` what each may be before anything is known,
//! `specs/Outcomes` what comes of each, `specs/Targets` what a rule narrows, and `specs/Typed` which problems are typed.
#![tactic(auto)]

mod binders;
mod place;
mod targets;

pub use binders::{binder_types, nodes_stand_inside_one_row_of_binders};
pub use place::{Occurrence, Place, Rule, View};
pub use targets::{referred, target};
