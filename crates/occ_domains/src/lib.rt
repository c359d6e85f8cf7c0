//! What a predicate may be, and which values an expression may have.
//!
//! `specs/Bodies` says which values a body has, `specs/Domains` what a domain has.
#![tactic(auto)]

mod body;
mod domain;
mod exact;
mod laws;
mod meets;
mod removal;
mod tests;
mod wholes;

pub use body::Body;
pub use domain::{Domain, Truths, is_empty, meet, single};
pub use exact::only;
pub use laws::{bodies_have_their_values, domains_have_their_outcomes};
pub use removal::without;
pub use tests::{Test, parts};
pub use wholes::{first, is_without_sets, whole};
