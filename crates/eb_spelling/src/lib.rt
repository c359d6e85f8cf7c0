//! Formulas of Event-B as texts: the tokens of a formula again, and that they read as that formula.
#![tactic(auto)]

mod laws;
mod signs;
mod spelling;

pub use laws::a_formula_reads_back;
pub use spelling::spell;
