//! The names of carrier sets are identifiers, so their bytes never part what is printed.
#![tactic(auto)]

mod laws;

pub use laws::{carriers_have_plain_names, plain_names_are_words};
