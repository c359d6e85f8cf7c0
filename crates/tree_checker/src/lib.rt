//! The checker of refutation trees.
//!
//! The definitions stand in `specs/`: trees and when they hold (`Trees`), places and causes
//! (`Verdicts`), and the verdict on any text (`Texts`). Stores and valuations stand in `occ_store`.
//! `Machine` is the checker as it goes through the lines.
#![tactic(auto)]

mod checker;
mod laws;
mod store;
mod text;
mod verdict;

pub use laws::{
    accepted_text_refutes, closing_lines_are_trees, splits_are_fewer_than_valuations,
    trees_have_small_numbers, whole_texts_are_printed_trees,
};
pub use text::check_text;
pub use verdict::{Cause, Verdict};
