//! Scopes.
ghost use Rattle.std.specs.Prelude.{◌≡◌, ◌<◌, ◌^◌, length, drop, IfErr, pos, int_le, true, ◌-ℤ◌};
ghost use Rattle.eb_parser.specs.steps.Finding.{Finds};
ghost use Rattle.eb_units.specs.steps.Descending.{IsPlaced};
ghost use Rattle.eb_units.specs.steps.Descending as spec;

use super::front::{at_name, at_sign, at_word, name_at, next, number_at, sign_at, word_at};
use super::many::{Listed, many};
use eb_lexer::Tokens;
use eb_parser::ParseFault;
use eb_signs::Sign;
use eb_syntax::{ScopeBlock, ScopeSetting};
use std::alloc::Global;

fn negated(n: i64) -> i64
    ensures { int_le (pos 0) n ≡ true → result ≡ pos 0 -ℤ n }
{
    0i64.saturating_sub(n)
}

/// A number, or a number behind `-`.
#[tactic(auto, unfolding(crate::specs::steps::Descending::bound_at))]
fn bound_at(tokens: &Tokens, at: u32) -> Result<(i64, u32), ParseFault>
    requires { length tokens.now < 2 ^ 32 }
    ensures exact { Finds tokens.now result (spec.bound_at (drop at tokens.now)) }
    ensures placed { IfErr result (IsPlaced tokens.now) }
{
    if at_sign(tokens, Sign::Minus, at) {
        let (n, rest) = number_at(tokens, next(tokens, at))?;
        Ok((negated(n), rest))
    } else {
        number_at(tokens, at)
    }
}

#[tactic(auto, unfolding(crate::specs::steps::Descending::integers_at))]
fn integers_at(tokens: &Tokens, at: u32) -> Result<(ScopeSetting, u32), ParseFault>
    requires { length tokens.now < 2 ^ 32 }
    ensures exact { Finds tokens.now result (spec.integers_at (drop at tokens.now)) }
    ensures placed { IfErr result (IsPlaced tokens.now) }
{
    let (place, rest) = word_at(tokens, "int", at)?;
    let (lo, rest) = bound_at(tokens, rest)?;
    let (_, rest) = sign_at(tokens, Sign::UpTo, rest)?;
    let (hi, rest) = bound_at(tokens, rest)?;
    Ok((ScopeSetting::Integers(place, lo, hi), rest))
}

#[tactic(auto, unfolding(crate::specs::steps::Descending::size_at))]
fn size_at(alloc: Global, tokens: &Tokens, at: u32) -> Result<(ScopeSetting, u32), ParseFault>
    requires { length tokens.now < 2 ^ 32 }
    ensures exact { Finds tokens.now result (spec.size_at (drop at tokens.now)) }
    ensures placed { IfErr result (IsPlaced tokens.now) }
{
    let (_, rest) = word_at(tokens, "size", at)?;
    let (set, rest) = name_at(alloc, tokens, rest)?;
    let (size, rest) = number_at(tokens, rest)?;
    Ok((ScopeSetting::Size(set, size), rest))
}

#[tactic(auto, unfolding(crate::specs::steps::Descending::depth_at))]
fn depth_at(tokens: &Tokens, at: u32) -> Result<(ScopeSetting, u32), ParseFault>
    requires { length tokens.now < 2 ^ 32 }
    ensures exact { Finds tokens.now result (spec.depth_at (drop at tokens.now)) }
    ensures placed { IfErr result (IsPlaced tokens.now) }
{
    let (place, rest) = word_at(tokens, "depth", at)?;
    let (depth, rest) = number_at(tokens, rest)?;
    Ok((ScopeSetting::Depth(place, depth), rest))
}

/// The setting here.
impl Listed for ScopeSetting {
    ghost begins = { spec.at_name };

    ghost reads = { λ _. spec.setting_at };

    fn is_here(tokens: &Tokens, at: u32) -> bool {
        at_name(tokens, at)
    }

    #[tactic(auto, unfolding(crate::specs::steps::Descending::setting_at))]
    fn take(alloc: Global, tokens: &Tokens, at: u32) -> Result<(ScopeSetting, u32), ParseFault> {
        if at_word(tokens, "int", at) {
            integers_at(tokens, at)
        } else if at_word(tokens, "size", at) {
            size_at(alloc, tokens, at)
        } else {
            depth_at(tokens, at)
        }
    }
}

/// The scope here.
#[tactic(auto, unfolding(crate::specs::steps::Descending::scope_at))]
pub(crate) fn scope_at(
    alloc: Global,
    tokens: &Tokens,
    at: u32,
) -> Result<(ScopeBlock, u32), ParseFault>
    requires { length tokens.now < 2 ^ 32 }
    ensures exact { Finds tokens.now result (spec.scope_at (spec.room tokens.now) (drop at tokens.now)) }
    ensures placed { IfErr result (IsPlaced tokens.now) }
{
    let (place, rest) = word_at(tokens, "scope", at)?;
    let (settings, rest) = many::<ScopeSetting>(alloc, tokens, rest)?;
    let (_, rest) = sign_at(tokens, Sign::End, rest)?;
    Ok((ScopeBlock { place, settings }, rest))
}
