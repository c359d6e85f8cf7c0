//! Which typings fit a model, and the equations between types whose solutions they are.
#![tactic(auto)]

mod generated;
mod model;
mod problem;
mod tuple;
mod walk;

pub use problem::{Problem, typing_problem};
