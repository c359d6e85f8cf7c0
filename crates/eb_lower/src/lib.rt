//! The rules of names: what is declared and what is used in a text.
#![tactic(auto)]

mod facts;
mod fault;
mod judging;
mod known;
mod unsupported;
mod usages;

pub use fault::NameFault;
pub use judging::names;
