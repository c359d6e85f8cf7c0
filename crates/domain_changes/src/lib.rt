//! Whether a domain changed, and how many changes it can take.
//!
//! `specs/Room` says how many.
#![tactic(auto)]

mod changes;
mod laws;

pub use changes::same;
pub use laws::{meets_leave_less_room, parts_leave_no_more_room};
