//! Rules of propagation on integers: which values `+`, `-`, `*`, `/`, `mod`, `^` and which truths `<=` may have by intervals of
//! their sides, and which integers a side may have by the whole and the other side.
//!
//! The definitions stand in `specs/`: `Ends` (what the rows share), `Sums`, `Products` and `Powers`, and `Arithmetic` (the rows by
//! operator).
#![tactic(auto)]

mod arithmetic;
mod ends;
mod laws;
mod powers;
mod products;
mod sums;

pub use arithmetic::{Arithmetic, down_arithmetic, up_arithmetic};
pub use laws::rows_of_integers_are_sound;
pub use sums::{down_at_most, up_at_most};
