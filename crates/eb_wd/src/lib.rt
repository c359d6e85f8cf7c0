//! What says that a predicate isn't Undefined.
#![tactic(auto)]

mod laws;
mod parts;
mod well_defined;

pub use laws::wd_says_what_is_defined;
pub use well_defined::wd;
