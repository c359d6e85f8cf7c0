//! The rules of propagation at the nodes of a problem.
//!
//! `specs/Nodes` says what Up and Down answer at each node, `specs/Narrowing` what a rule makes of the domain that it narrows.
#![tactic(auto)]

mod applying;
mod downward;
mod laws;
mod upward;

pub use applying::narrowing;
pub use downward::down;
pub use laws::{down_is_sound, up_is_sound};
pub use upward::up;
