//! Stores, which give each occurrence a domain, and the boxes that a tree has yet to close. An
//! occurrence is a choice.
#![tactic(auto)]

mod boxes;
mod laws;
mod store;

pub use boxes::Boxes;
pub use laws::first_stores_have_the_valuations;
pub use store::Store;
