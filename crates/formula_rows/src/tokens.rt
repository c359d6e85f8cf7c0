use super::writing::{put_at, put_name, put_pair};
use eb_lexer::{LexFault, Token, TokenKind, Tokens, tokens};
use std::alloc::{AllocError, Global};

fn show_kind(kind: &TokenKind, out: &mut String) -> Result<(), AllocError> {
    match kind {
        TokenKind::Word(name) => out.push_str(name.as_str()),
        TokenKind::Primed(name) => put_pair(name.as_str(), "'", out),
        TokenKind::Label(name) => put_pair("@", name.as_str(), out),
        TokenKind::Number(n) => write!(out, "{n}"),
        TokenKind::Sign(sign) => put_name("", *sign, out),
    }
}

fn show_fault(fault: LexFault, out: &mut String) -> Result<(), AllocError> {
    match fault {
        LexFault::NotUtf8 => out.push_str("NotUtf8"),
        LexFault::BadToken(at) => put_at("BadToken ", at, out),
        LexFault::Memory => Err(AllocError),
    }
}

/// The tokens of a text, if it has some.
pub(crate) fn tokens_of(alloc: Global, text: &[u8]) -> Option<Tokens> {
    if text.len() >= 1 << 32 {
        return None;
    }
    tokens(alloc, text).ok()
}

fn show_kinds(tokens: &[Token], out: &mut String) -> Result<(), AllocError> {
    for token in tokens {
        if !out.is_empty() {
            out.push(' ')?;
        }
        show_kind(&token.kind, out)?;
    }
    Ok(())
}

/// The tokens of a text with one blank between two of them, a sign by its name; or the fault.
pub(crate) fn kinds_and_faults(
    alloc: Global,
    text: &[u8],
    out: &mut String,
) -> Result<(), AllocError> {
    if text.len() >= 1 << 32 {
        return Ok(());
    }
    match tokens(alloc, text) {
        Ok(tokens) => show_kinds(tokens.as_slice(), out),
        Err(fault) => show_fault(fault, out),
    }
}

fn show_places(tokens: &[Token], out: &mut String) -> Result<(), AllocError> {
    for token in tokens {
        if !out.is_empty() {
            out.push(' ')?;
        }
        put_at("", token.start, out)?;
        put_at("-", token.end, out)?;
    }
    Ok(())
}

/// The places of the tokens of a text, with one blank between two of them; or the fault.
pub(crate) fn places(alloc: Global, text: &[u8], out: &mut String) -> Result<(), AllocError> {
    if text.len() >= 1 << 32 {
        return Ok(());
    }
    match tokens(alloc, text) {
        Ok(tokens) => show_places(tokens.as_slice(), out),
        Err(fault) => show_fault(fault, out),
    }
}
