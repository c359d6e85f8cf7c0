//! Reads a long formula of the kind that each word names, and prints how many tokens it has and how
//! many of them the longest formula takes. The script under bench/ times it.
#![tactic(auto)]

use eb_lexer::{LexFault, tokens};
use eb_parser::{FormulaKind, ParseFault, formula};
use std::alloc::{AllocError, Global};
use std::{env, io};

/// How many parts a long formula has.
const PARTS: u32 = 100_000;

/// `n : {1,1,..}`, a set with many members.
fn members(alloc: Global, many: u32) -> Result<String, AllocError> {
    let mut text = String::from_str(alloc, "n : {1")?;
    for _ in 1..many {
        text.push_str(",1")?;
    }
    text.push_str("}")?;
    Ok(text)
}

/// `n = 1 & n = 1 & ..` in one chain, which is higher than formulas may be where it has more than 200
/// parts.
fn chain(alloc: Global, many: u32) -> Result<String, AllocError> {
    let mut text = String::from_str(alloc, "n = 1")?;
    for _ in 1..many {
        text.push_str(" & n = 1")?;
    }
    Ok(text)
}

/// Conjunctions in parentheses of two parts each, with 2 to the power of `depth` comparisons.
fn conjuncts(alloc: Global, depth: u32) -> Result<String, AllocError> {
    let mut text = String::from_str(alloc, "n = 1")?;
    for _ in 0..depth {
        let mut both = String::from_str(alloc, "(")?;
        both.push_str(text.as_str())?;
        both.push_str(" & ")?;
        both.push_str(text.as_str())?;
        both.push_str(")")?;
        text = both;
    }
    Ok(text)
}

fn text_of(alloc: Global, kind: &str) -> Result<String, AllocError> {
    match kind {
        "members" => members(alloc, PARTS),
        "chain" => chain(alloc, PARTS),
        _ => conjuncts(alloc, 17),
    }
}

/// How many tokens the text has, and how many of them its longest predicate takes, 0 where it is
/// too deep or none.
fn counts(alloc: Global, text: &str) -> Result<(usize, u32), AllocError> {
    if text.len() > 1 << 30 {
        return Ok((0, 0));
    }
    let tokens = match tokens(alloc, text.as_bytes()) {
        Ok(tokens) => tokens,
        Err(LexFault::Memory) => return Err(AllocError),
        Err(_) => return Ok((0, 0)),
    };
    let many = tokens.len();
    if many > 1 << 30 {
        return Ok((many, 0));
    }
    match formula(alloc, &tokens, 0, FormulaKind::Pred) {
        Ok((_, end)) => Ok((many, end)),
        Err(ParseFault::Memory) => Err(AllocError),
        Err(_) => Ok((many, 0)),
    }
}

fn main(rt: HostRuntime) -> io::Result<()> {
    let alloc = rt.alloc();
    let words = env::args(&rt)?;
    for kind in words.skip(1) {
        let text = text_of(alloc, kind.as_str())?;
        let (all, taken) = counts(alloc, text.as_str())?;
        println!(rt; "{} {all} {taken}", kind.as_str())?;
    }
    Ok(())
}
