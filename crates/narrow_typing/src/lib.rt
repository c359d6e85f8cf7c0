//! Terms in narrow form are typed as the terms that they are made from.
#![tactic(auto)]

mod laws;

pub use laws::narrow_terms_are_typed;
