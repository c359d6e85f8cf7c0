//! Contexts.
ghost use Rattle.std.specs.Prelude.{◌<◌, ◌^◌, length, drop, IfErr};
ghost use Rattle.eb_parser.specs.steps.Finding.{Finds};
ghost use Rattle.eb_units.specs.steps.Descending.{IsPlaced};
ghost use Rattle.eb_units.specs.steps.Descending as spec;

use super::front::{at_sign, name_at, next, sign_at};
use super::lists::{names_at, names_behind_at};
use super::many::{Listed, many};
use eb_lexer::Tokens;
use eb_parser::ParseFault;
use eb_signs::Sign;
use eb_syntax::{Context, ContextClause, LabelledPredicate};
use std::alloc::Global;

#[tactic(auto, unfolding(crate::specs::steps::Descending::sets_at))]
fn sets_at(alloc: Global, tokens: &Tokens, at: u32) -> Result<(ContextClause, u32), ParseFault>
    requires { length tokens.now < 2 ^ 32 }
    ensures exact { Finds tokens.now result (spec.sets_at (spec.room tokens.now) (drop at tokens.now)) }
    ensures placed { IfErr result (IsPlaced tokens.now) }
{
    let (names, rest) = names_at(alloc, tokens, at)?;
    Ok((ContextClause::Sets(names), rest))
}

#[tactic(auto, unfolding(crate::specs::steps::Descending::constants_at))]
fn constants_at(alloc: Global, tokens: &Tokens, at: u32) -> Result<(ContextClause, u32), ParseFault>
    requires { length tokens.now < 2 ^ 32 }
    ensures exact { Finds tokens.now result (spec.constants_at (spec.room tokens.now) (drop at tokens.now)) }
    ensures placed { IfErr result (IsPlaced tokens.now) }
{
    let (names, rest) = names_at(alloc, tokens, at)?;
    Ok((ContextClause::Constants(names), rest))
}

#[tactic(auto, unfolding(crate::specs::steps::Descending::axioms_at))]
fn axioms_at(alloc: Global, tokens: &Tokens, at: u32) -> Result<(ContextClause, u32), ParseFault>
    requires { length tokens.now < 2 ^ 32 }
    ensures exact { Finds tokens.now result (spec.axioms_at 201 (spec.room tokens.now) (drop at tokens.now)) }
    ensures placed { IfErr result (IsPlaced tokens.now) }
{
    let (_, rest) = sign_at(tokens, Sign::Axioms, at)?;
    let (axioms, rest) = many::<LabelledPredicate>(alloc, tokens, rest)?;
    Ok((ContextClause::Axioms(axioms), rest))
}

/// The clause of a context here.
impl Listed for ContextClause {
    ghost begins = { spec.opens_context_part };

    ghost reads = { λ ts. spec.context_part_at 201 (spec.room ts) };

    #[tactic(auto, unfolding(crate::specs::steps::Descending::opens_context_part))]
    fn is_here(tokens: &Tokens, at: u32) -> bool {
        at_sign(tokens, Sign::Sets, at)
            || at_sign(tokens, Sign::Constants, at)
            || at_sign(tokens, Sign::Axioms, at)
    }

    #[tactic(auto, unfolding(crate::specs::steps::Descending::context_part_at))]
    fn take(alloc: Global, tokens: &Tokens, at: u32) -> Result<(ContextClause, u32), ParseFault> {
        if at_sign(tokens, Sign::Sets, at) {
            sets_at(alloc, tokens, next(tokens, at))
        } else if at_sign(tokens, Sign::Constants, at) {
            constants_at(alloc, tokens, next(tokens, at))
        } else {
            axioms_at(alloc, tokens, at)
        }
    }
}

/// The context here.
#[tactic(auto, unfolding(crate::specs::steps::Descending::context_at))]
pub(crate) fn context_at(
    alloc: Global,
    tokens: &Tokens,
    at: u32,
) -> Result<(Context, u32), ParseFault>
    requires { length tokens.now < 2 ^ 32 }
    ensures exact { Finds tokens.now result (spec.context_at 201 (spec.room tokens.now) (drop at tokens.now)) }
    ensures placed { IfErr result (IsPlaced tokens.now) }
{
    let (_, rest) = sign_at(tokens, Sign::Context, at)?;
    let (name, rest) = name_at(alloc, tokens, rest)?;
    let (extends, rest) = names_behind_at(alloc, tokens, Sign::Extends, rest)?;
    let (clauses, rest) = many::<ContextClause>(alloc, tokens, rest)?;
    let (_, rest) = sign_at(tokens, Sign::End, rest)?;
    Ok((
        Context {
            name,
            extends,
            clauses,
        },
        rest,
    ))
}
