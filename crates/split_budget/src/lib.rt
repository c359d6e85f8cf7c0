//! Fresh trees have few splits.
//!
//! `specs/Volumes` says how many valuations there are.
#![tactic(auto)]

mod laws;

pub use laws::fresh_trees_split_within_their_valuations;
