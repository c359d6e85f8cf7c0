//! The values of operators by the values of their parts: arithmetic, sets, relations, the tests of values, and the three truths.
//!
//! The definitions stand in `specs/`: `Truths` (the connectives), `Arithmetic`, `Operations` (values) and `Tests` (of values).
#![tactic(auto)]

mod arithmetic;
mod operations;
mod predicates;
mod sets;
mod truth3;

pub use arithmetic::{difference, power, product, quotient, remainder, sum};
pub use operations::{
    bool_of, called_on, converse, empty_set, negated, operation, part_at, part_copied, set_of_side,
    set_with, sides, union_of,
};
pub use predicates::{
    are_arrows, are_pairs, functional, has_each, infinite_has_each, is_partition, is_power,
    is_whole, members, same, test,
};
pub use sets::{identity, listed, projection};
pub use truth3::{Truth3, connective, decided};
