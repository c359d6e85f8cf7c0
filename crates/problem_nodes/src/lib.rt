//! The nodes of a problem by number, with where each stands: what it is a part of, and where its own nodes end.
//!
//! `specs/Places` says which numbers the parts of a node have, and what a node stands below.
#![tactic(auto)]

mod laws;
mod lists;
mod nodes;

pub use laws::nodes_have_their_places;
pub use nodes::{Above, Nodes};
