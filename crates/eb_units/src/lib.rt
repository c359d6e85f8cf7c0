//! The units of a whole text, read from tokens: contexts, machines, scopes and queries of Event-B.
#![tactic(auto)]

mod actions;
mod contexts;
mod events;
mod front;
mod laws;
mod lists;
mod machines;
mod many;
mod queries;
mod scopes;
mod text;

pub use eb_parser::ParseFault;
pub use laws::a_text_has_one_reading;
pub use text::units;
