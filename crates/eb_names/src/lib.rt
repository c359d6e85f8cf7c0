//! Names and bytes, which every other crate speaks of.
#![tactic(auto)]

mod name;

pub use name::{Bytes, Name, Names};
