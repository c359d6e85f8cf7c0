use super::shown_units::show_unit;
use super::tokens::tokens_of;
use super::writing::put_name;
use eb_lexer::Tokens;
use eb_syntax::EbUnit;
use eb_units::units;
use std::alloc::{AllocError, Global};

/// The units, each with `;` behind it.
fn show_units(units: &[EbUnit], out: &mut String) -> Result<(), AllocError> {
    for unit in units {
        show_unit(unit, out)?;
        out.push(';')?;
    }
    Ok(())
}

fn show_read(alloc: Global, tokens: &Tokens, out: &mut String) -> Result<(), AllocError> {
    if tokens.len() >= 1 << 32 {
        return Ok(());
    }
    match units(alloc, tokens) {
        Ok(units) => show_units(units.as_slice(), out),
        Err(fault) => put_name("", fault, out),
    }
}

/// The units of the text, or the fault.
pub(crate) fn units_of(alloc: Global, text: &[u8], out: &mut String) -> Result<(), AllocError> {
    match tokens_of(alloc, text) {
        Some(tokens) => show_read(alloc, &tokens, out),
        None => out.push_str("no tokens"),
    }
}
