use super::shown_formulas::{placed, show};
use super::tokens::tokens_of;
use super::writing::{put_at, put_name};
use eb_lexer::Tokens;
use eb_parser::{FormulaKind, ParseFault, formula};
use eb_spelling::spell;
use eb_syntax::Ast;
use sqlite_items::Boxed;
use std::alloc::{AllocError, Global};
use std::str;

/// What is shown of a formula.
#[derive(Clone, Copy)]
pub(crate) enum Shown {
    /// The formula, its operators first, and how many tokens are behind it where there are some.
    Formula,
    /// How many tokens are behind it where there are some.
    Left,
    /// The places of its parts, and the position behind it.
    Places,
    /// Whether it is the whole text.
    Reach,
    /// The text that it is spelled with.
    Spelled,
}

/// The formula of the kind at a position, in a box, and the position behind it.
fn boxed_formula(
    alloc: Global,
    tokens: &Tokens,
    position: u32,
    kind: FormulaKind,
) -> Result<(Boxed<Ast>, u32), ParseFault> {
    if tokens.len() >= 1 << 32 {
        return Err(ParseFault::Memory);
    }
    let (ast, end) = formula(alloc, tokens, position, kind)?;
    Ok((Boxed::new(alloc, ast)?, end))
}

fn show_left(left: usize, out: &mut String) -> Result<(), AllocError> {
    if left > 0 {
        write!(out, " +{left}")?;
    }
    Ok(())
}

fn show_whole(ast: &Ast, left: usize, out: &mut String) -> Result<(), AllocError> {
    show(ast, out)?;
    show_left(left, out)
}

fn show_places(ast: &Ast, end: u32, out: &mut String) -> Result<(), AllocError> {
    placed(ast, out)?;
    put_at("to ", end, out)
}

fn show_spelled(alloc: Global, ast: &Ast, out: &mut String) -> Result<(), AllocError> {
    let text = spell(alloc, ast)?;
    out.push_str(str::from_utf8(text.as_slice()).unwrap_or("no UTF-8"))
}

/// What is to be shown of the formula that ends at a position, with so many tokens behind it.
fn show_found(
    alloc: Global,
    ast: &Ast,
    (end, left): (u32, usize),
    shown: Shown,
    out: &mut String,
) -> Result<(), AllocError> {
    match shown {
        Shown::Formula => show_whole(ast, left, out),
        Shown::Left => show_left(left, out),
        Shown::Places => show_places(ast, end, out),
        Shown::Reach => out.push_str(if left > 0 { "in part" } else { "whole" }),
        Shown::Spelled => show_spelled(alloc, ast, out),
    }
}

/// What is to be shown of the formula of the kind at a position, or the fault.
fn show_at(
    alloc: Global,
    tokens: &Tokens,
    (position, kind): (u32, FormulaKind),
    shown: Shown,
    out: &mut String,
) -> Result<(), AllocError> {
    match boxed_formula(alloc, tokens, position, kind) {
        Ok((ast, end)) => {
            let left = tokens.len().saturating_sub(end as usize);
            show_found(alloc, ast.get(), (end, left), shown, out)
        }
        Err(fault) => put_name("", fault, out),
    }
}

/// What is to be shown of the formula of the kind at a position of the text, or the fault.
pub(crate) fn formula_at(
    alloc: Global,
    text: &[u8],
    found: (u32, FormulaKind),
    shown: Shown,
    out: &mut String,
) -> Result<(), AllocError> {
    match tokens_of(alloc, text) {
        Some(tokens) => show_at(alloc, &tokens, found, shown, out),
        None => out.push_str("no tokens"),
    }
}

/// The formula that is read of the text that the formula at the front is spelled with, and how many tokens
/// are behind the first.
pub(crate) fn respelled(
    alloc: Global,
    text: &[u8],
    kind: FormulaKind,
    out: &mut String,
) -> Result<(), AllocError> {
    let mut again = String::new(alloc);
    formula_at(alloc, text, (0, kind), Shown::Spelled, &mut again)?;
    show_again(alloc, text, again.as_str(), kind, out)
}

fn show_again(
    alloc: Global,
    text: &[u8],
    again: &str,
    kind: FormulaKind,
    out: &mut String,
) -> Result<(), AllocError> {
    formula_at(alloc, again.as_bytes(), (0, kind), Shown::Formula, out)?;
    formula_at(alloc, text, (0, kind), Shown::Left, out)
}
