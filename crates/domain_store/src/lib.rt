//! The domains of the occurrences of a problem, narrowed and split, with all changes taken back as boxes are closed.
//!
//! `specs/Boxes` says which stores the boxes have, `specs/Places` which places a problem has.
#![tactic(auto)]

mod boxes;
mod changes;
mod firsts;
mod laws;
mod lists;
mod search;
mod slots;
mod wholes;

pub use boxes::Boxes;
pub use laws::{boxes_are_seen_by_the_first, stores_stay_in_normal_form};
