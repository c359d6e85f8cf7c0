//! The names in scope, with numbers in place of what they stand for.
#![tactic(auto)]

mod entries;
mod marks;
mod names;
mod scope;

pub use entries::Entry;
pub use marks::is_mark;
pub use names::Names;
pub use scope::Scope;
