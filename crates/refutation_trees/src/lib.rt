//! Refutation trees.
//!
//! `specs/Trees` says what a tree is and when it holds, `specs/Fresh` which trees split and leave open only where propagation has
//! nothing left to do.
#![tactic(auto)]

mod laws;

pub use laws::{closed_trees_refute, closing_lines_are_trees};
