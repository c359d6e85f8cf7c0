use super::columns::bytes_of;
use super::formulas::{Shown, formula_at, respelled};
use super::tokens::{kinds_and_faults, places};
use super::units::units_of;
use eb_parser::FormulaKind;
use std::alloc::{AllocError, Global};

/// What is shown of a text.
#[derive(Clone, Copy)]
pub(crate) enum Kind {
    /// The tokens.
    Tokens,
    /// The places of the tokens in bytes.
    TokenPlaces,
    /// What is to be shown of the formula of the kind at the position that stands before the text, or at the
    /// front.
    Formula(Shown, FormulaKind),
    /// The formula of the kind that is read of the text of the one at the front.
    Respelled(FormulaKind),
    /// The units.
    Units,
}

pub(crate) fn kind_of(name: &str) -> Option<Kind> {
    match name {
        "tokens" => Some(Kind::Tokens),
        "token_places" => Some(Kind::TokenPlaces),
        "expressions" => Some(Kind::Formula(Shown::Formula, FormulaKind::Expr)),
        "predicates" => Some(Kind::Formula(Shown::Formula, FormulaKind::Pred)),
        "expressions_at" => Some(Kind::Formula(Shown::Formula, FormulaKind::Expr)),
        "predicate_places" => Some(Kind::Formula(Shown::Places, FormulaKind::Pred)),
        "expression_reach" => Some(Kind::Formula(Shown::Reach, FormulaKind::Expr)),
        "predicate_reach" => Some(Kind::Formula(Shown::Reach, FormulaKind::Pred)),
        "spelled" => Some(Kind::Formula(Shown::Spelled, FormulaKind::Pred)),
        "respelled_expressions" => Some(Kind::Respelled(FormulaKind::Expr)),
        "respelled_predicates" => Some(Kind::Respelled(FormulaKind::Pred)),
        "units" => Some(Kind::Units),
        _ => None,
    }
}

/// The position that stands before a text, and the text.
fn positioned(text: &str) -> (u32, &str) {
    match text.split_once('\t') {
        Some((number, rest)) => (number.parse::<u32>().unwrap_or(0), rest),
        None => (0, text),
    }
}

/// What the library makes of the text.
pub(crate) fn answer(
    alloc: Global,
    kind: Kind,
    text: &str,
    out: &mut String,
) -> Result<(), AllocError> {
    let (position, text) = positioned(text);
    let bytes = bytes_of(alloc, text)?;
    answer_to(alloc, kind, position, bytes.as_slice(), out)
}

fn answer_to(
    alloc: Global,
    kind: Kind,
    position: u32,
    text: &[u8],
    out: &mut String,
) -> Result<(), AllocError> {
    match kind {
        Kind::Tokens => kinds_and_faults(alloc, text, out),
        Kind::TokenPlaces => places(alloc, text, out),
        Kind::Formula(shown, kind) => formula_at(alloc, text, (position, kind), shown, out),
        Kind::Respelled(kind) => respelled(alloc, text, kind, out),
        Kind::Units => units_of(alloc, text, out),
    }
}
