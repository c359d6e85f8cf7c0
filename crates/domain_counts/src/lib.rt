//! How many values a domain has: a bound on how often they can be parted.
//!
//! `specs/Counts` says how many values a body and a domain have.
#![tactic(auto)]

mod laws;

pub use laws::domains_have_counts;
