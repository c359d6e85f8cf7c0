//! Equations between numbered types, and the one solution, if there is just one: unification.
#![tactic(auto)]

mod depths;
mod equation;
mod fault;
mod laws;
mod marks;
mod merging;
mod settling;
mod solution;
mod solving;
mod store;

pub use equation::{Equation, Equations};
pub use fault::SolveFault;
pub use laws::{equations_join, other_types_are_free, types_are_in_order};
pub use solution::Solution;
pub use solving::solve;
