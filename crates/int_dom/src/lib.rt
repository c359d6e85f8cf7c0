//! Intervals of integers.
//!
//! `specs/Intervals` says which integers an interval has, and what its two parts by a number are.
#![tactic(auto)]

mod interval;

pub use interval::{Halves, Interval};
