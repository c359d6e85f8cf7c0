//! Which declaration or binder each name of a formula stands for: formulas with numbers in place of names. After Métayer and
//! Voisin, "The Event-B Mathematical Language" (2009).
#![tactic(auto)]

mod copies;
mod resolved;
mod resolving;

pub use copies::entries_from;
pub use resolved::{Resolved, ResolvedNode};
pub use resolving::resolve;
