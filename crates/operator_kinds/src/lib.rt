//! Kinds of operators that the meaning of terms and their narrow form tell apart: the relations whose right side may be a form,
//! the product, and the arrows with what each asks of its relations (Abrial, "Modeling in Event-B", 2010).
//!
//! The definitions stand in `specs/Operators`.
#![tactic(auto)]

mod kinds;

pub use kinds::{
    is_arrow, is_function, is_injection, is_membership, is_product, is_surjective, is_total,
};
