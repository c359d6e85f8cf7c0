//! The search: a solution of a problem, or a refutation tree of it.
//!
//! `specs/Search` says what it answers. The tree is that of `tree_checker`.
#![tactic(auto)]

mod depth_first;

pub use depth_first::{Answer, search};
