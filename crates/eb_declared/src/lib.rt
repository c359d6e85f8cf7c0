//! What stands in the units of a text, in its order, and whether a declaration repeats an earlier one.
#![tactic(auto)]

mod declarations;
mod fault;
mod part;
mod repeats;
mod walk;

pub use fault::RepeatFault;
pub use part::{Part, Position, Space};
pub use repeats::judge_declarations;
pub use walk::parts;
