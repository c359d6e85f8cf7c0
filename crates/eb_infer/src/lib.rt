//! The types of a model's identifiers and marks, where there is just one typing.
#![tactic(auto)]

mod fault;
mod typing;

pub use fault::TypeFault;
pub use typing::{Typing, infer};
