//! The lines of a refutation tree, and their texts.
//!
//! `specs/Lines` says which texts a line has, and how a line is read for a problem.
#![tactic(auto)]

mod laws;
mod line;
mod reader;
mod writer;

pub use laws::lines_are_read_back;
pub use line::{Line, LineFault};
pub use reader::read_line;
pub use writer::line_text;
