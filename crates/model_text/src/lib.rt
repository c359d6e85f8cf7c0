//! What a text asks: a typed model, its scope, how many queries, and their problem; or why it is refused.
//!
//! The definitions stand in `specs/`: `Texts` (what a text is, and why it is refused, step by step), `Asking` (what its units ask) and
//! `Refusals` (the lines of refusals).
#![tactic(auto)]

mod asked;
mod asking;
mod fault;
mod refusal;
mod text;

pub use asked::{Asked, Wanted};
pub use fault::TextFault;
pub use refusal::Refusal;
pub use text::asked_text;
