//! Terms that narrow form is built of: copies, terms under more binders, its operators, and what it writes of `partition`.
//!
//! The definitions stand in `specs/`: `Shifting` (terms under more binders), `Building` (operators and partitions) and `Parts` (types of
//! the parts of values).
#![tactic(auto)]

mod build;
mod partitions;
mod shift;
mod types;

pub use build::{
    both, call, empty_set, extension, functional, infinite_has, inverse, is_defined, negation,
    no_value, operation, part, whole,
};
pub use partitions::partition;
pub use shift::{copied, shifted, sum};
pub use types::{element_of, part_of};
