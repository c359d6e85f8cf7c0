//! Formulas of Event-B, read from tokens, after Métayer and Voisin, "The Event-B Mathematical Language" (2009).
#![tactic(auto)]

mod fault;
mod formulas;
mod front;
mod laws;
mod names;
mod part;
mod positions;
mod reading;
mod table;

pub use fault::ParseFault;
pub use formulas::{FormulaKind, formula};
pub use laws::{a_formula_has_one_reading, formulas_are_found_at_the_front};
pub use part::Part;
pub use positions::{place_of, tokens_from};
pub use table::closing_sign;
