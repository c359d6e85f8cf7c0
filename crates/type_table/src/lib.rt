//! The table of types: what each operator asks of its parts, and what the whole is. The types are those of Abrial,
//! "Modeling in Event-B" (2010).
#![tactic(auto)]

mod pattern;
mod rows;

pub use pattern::{BinaryRow, Letter, Pattern, TernaryRow, UnaryRow};
pub use rows::{
    assignment_at_row, assignment_row, builder_row, call_row, carrier_row, choice_row,
    comprehension_row, constant_pattern, gathering_row, inverse_row, lambda_row, operator_row,
    prefix_row, quantifier_row,
};
