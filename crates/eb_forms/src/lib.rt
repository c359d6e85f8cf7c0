//! Which formulas of a model are refused for their form: sets that are no values where only values may stand, and binders and
//! partitions that are too wide. After Métayer and Voisin, "The Event-B Mathematical Language" (2009).
#![tactic(auto)]

mod forms;
mod kind;
mod models;
mod widths;

pub use forms::{call_kind, constant_kind, operator_kind};
pub use kind::Kind;
pub use models::{first_misplaced, too_wide};
pub use widths::Wide;
