//! What the words of a command line ask for, read by `clap`.
#![tactic(auto)]

mod action;
mod fault;
mod laws;
mod matched;
mod number;
mod simple;
mod words;

pub use action::{Action, Command};
pub use fault::WordsFault;
pub use laws::{commands_are_those_of_the_table, refusals_have_a_cause};
pub use words::command;
