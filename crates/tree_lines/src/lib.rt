//! The lines of a refutation tree, and their texts.
//!
//! `specs/Words` says which text a line has, `specs/Written` which forms a text may have before a problem is asked, and `specs/Lines`
//! how a line is read for a problem.
#![tactic(auto)]

mod form;
mod laws;
mod line;
mod numbers;
mod reader;
mod tests;
mod writer;
mod written;

pub use laws::lines_are_read_back;
pub use line::{Line, LineFault};
pub use reader::read_line;
pub use writer::{line_text, write_line};
