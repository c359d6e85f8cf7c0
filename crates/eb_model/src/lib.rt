//! The model of a text with numbers in place of names.
#![tactic(auto)]

mod model;
mod rows;
mod units;
mod walker;

pub use model::{Change, EbModel, LabelledFormula, ModelAction, ModelEvent, ModelPart};
pub use units::resolve_model;
