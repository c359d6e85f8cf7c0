//! The rules of propagation keep what comes of each occurrence.
#![tactic(auto)]

mod laws;

pub use laws::rules_keep_what_comes;
