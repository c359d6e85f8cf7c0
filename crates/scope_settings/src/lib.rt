//! The scope of a text: what its scope block says, the defaults for the rest, and the limits that a scope and a model keep.
//!
//! The definitions stand in `specs/`: `Scopes` (the settings and the defaults), `Limits` (the limits, in the order in which they
//! are judged) and `Faults`.
#![tactic(auto)]

mod fault;
mod judging;
mod limit;
mod reading;
mod scoping;

pub use fault::ScopeFault;
pub use limit::Limit;
pub use scoping::scope_of;
