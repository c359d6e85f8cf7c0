//! The terms of formulas: values and references in place of names, and ranges for what is bound.
//!
//! The definitions stand in `specs/`: `Anchors` (which sets the identifiers of a binder take their values from) and `Lowering`.
#![tactic(auto)]

mod anchors;
mod around;
mod binding;
mod kinds;
mod leaves;
mod lowering;
mod marks;
mod numbers;
mod pattern;
mod setting;

pub use around::{Around, Leaf, Place};
pub use lowering::term_of;
pub use setting::{Ranges, Setting};
