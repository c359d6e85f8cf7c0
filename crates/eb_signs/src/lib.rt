//! The signs of the Event-B mathematical language and how each is spelled, and the levels of its operators, after Métayer
//! and Voisin, "The Event-B Mathematical Language" (2009).
#![tactic(auto)]

mod laws;
pub mod level;
mod levels;
mod sign;
mod symbols;
mod text;
mod words;

pub use laws::a_sign_is_spelled_by_its_text;
pub use levels::{
    Group, admits, call_level, call_takes, constant_level, group_of, is_expr, is_pred, level_of,
    prefix_level, prefix_takes, right_of, takes,
};
pub use sign::Sign;
pub use symbols::symbol;
pub use words::reserved;
