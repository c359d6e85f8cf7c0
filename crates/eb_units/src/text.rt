//! Whole texts.
ghost use Rattle.std.specs.Prelude.{◌<◌, ◌^◌, length, drop, IfErr, IfOk, ℕ, ◌≤◌};
ghost use Rattle.eb_parser.specs.steps.Finding.{Finds};
ghost use Rattle.eb_units.specs.steps.Descending.{IsPlaced};
ghost use Rattle.eb_units.specs.steps.Descending as spec;
ghost use Rattle.eb_units.specs.Grammar as grammar;
ghost use Rattle.eb_units.specs.Faults.{IsFaultOf};

use super::contexts::context_at;
use super::front::{at_sign, at_word, is_token};
use super::machines::machine_at;
use super::many::{Listed, many};
use super::queries::queries_at;
use super::scopes::scope_at;
use eb_lexer::Tokens;
use eb_parser::{ParseFault, formulas_are_found_at_the_front};
use eb_signs::Sign;
use eb_syntax::{EbUnit, Units};
use std::alloc::Global;

#[tactic(auto, unfolding(crate::specs::steps::Descending::scope_or_queries_at))]
fn scope_or_queries_at(alloc: Global, tokens: &Tokens, at: u32) -> Result<(EbUnit, u32), ParseFault>
    requires { length tokens.now < 2 ^ 32 }
    ensures exact { Finds tokens.now result (spec.scope_or_queries_at (spec.room tokens.now) (drop at tokens.now)) }
    ensures placed { IfErr result (IsPlaced tokens.now) }
{
    if at_word(tokens, "scope", at) {
        let (scope, rest) = scope_at(alloc, tokens, at)?;
        Ok((EbUnit::Scope(scope), rest))
    } else {
        let (queries, rest) = queries_at(alloc, tokens, at)?;
        Ok((EbUnit::Queries(queries), rest))
    }
}

/// The unit here.
impl Listed for EbUnit {
    ghost begins = { spec.is_token };

    ghost reads = { λ ts. spec.unit_at 201 (spec.room ts) };

    fn is_here(tokens: &Tokens, at: u32) -> bool {
        is_token(tokens, at)
    }

    #[tactic(auto, unfolding(crate::specs::steps::Descending::unit_at))]
    fn take(alloc: Global, tokens: &Tokens, at: u32) -> Result<(EbUnit, u32), ParseFault> {
        if at_sign(tokens, Sign::Context, at) {
            let (context, rest) = context_at(alloc, tokens, at)?;
            Ok((EbUnit::Context(context), rest))
        } else if at_sign(tokens, Sign::Machine, at) {
            let (machine, rest) = machine_at(alloc, tokens, at)?;
            Ok((EbUnit::Machine(machine), rest))
        } else {
            scope_or_queries_at(alloc, tokens, at)
        }
    }
}

/// The units of a text, from all of its tokens: contexts, machines, blocks of a scope and blocks of queries, in any order.
///
/// The grammar is at the head of specs/Grammar.antt; formulas are those of `formula`. Places are the starts of tokens in bytes.
///
/// Errors: Syntax, with the start of a token or the end of the last one in bytes, where the tokens are no text. TooDeep where in
/// every reading of the text a formula is higher than 200; it may also come where the tokens are no text. Where it comes, more
/// than 200 tokens stand one behind the other without a label or a word of units between them. Memory where memory ran out.
pub fn units(alloc: Global, tokens: &Tokens) -> Result<Units, ParseFault>
    requires { length tokens.now < 2 ^ 32 }
    ensures found { IfOk result (λ units. (h : ℕ) × grammar.Reads tokens.now units h × (h ≤ 200)) }
    ensures cause { IfErr result (IsFaultOf tokens.now) }
{
    formulas_are_found_at_the_front();
    let (units, _) = many::<EbUnit>(alloc, tokens, 0)?;
    Ok(units)
}
