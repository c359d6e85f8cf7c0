//! Which declarations the names of a text stand for: free and bound names, and the units of the model.
#![tactic(auto)]

mod contexts;
mod models;
mod sets;
mod uses;

pub use contexts::{Groups, Walk, context_places, grouped, lead_walk, walk_from, walk_reaches};
pub use models::{machine, marks_are_determined, model_units};
pub use sets::{NameSet, has_name, insert_name};
pub use uses::{Use, free_uses, is_among, names, pattern_names};
