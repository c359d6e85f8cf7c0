ghost use Rattle.std.specs.Prelude.{◌≡◌, ◌<◌, ◌≤◌, ◌+◌, ◌^◌, IfOk};
ghost use Rattle.eb_parser.specs.steps.Tables as tables;
ghost use Rattle.eb_parser.specs.steps.Climbing as spec;
ghost use Rattle.eb_parser.specs.steps.Climbing.{Gives};

use super::fault::{Fault, Stop};
use super::part::Part;
use super::table::{Follow, follow_of, row_of};
use eb_lexer::{Token, TokenKind};
use eb_signs::{Sign, admits, level_of};
use eb_syntax::{Identifier, Mark};
use std::alloc::Global;

/// Whether the first token is this sign.
pub(crate) fn begins(sign: Sign, tokens: &[Token]) -> bool
    ensures { result ≡ spec.begins sign tokens.now }
{
    match tokens {
        [first, ..] => first.kind.is_sign(sign),
        [] => false,
    }
}

/// The tokens behind the first.
pub(crate) fn after_first(tokens: &[Token]) -> &[Token]
    ensures { result.now ≡ spec.after_first tokens.now }
{
    match tokens {
        [_, rest @ ..] => rest,
        [] => tokens,
    }
}

/// The tokens behind this sign.
#[tactic(auto, unfolding(crate::specs::steps::Climbing::after_sign))]
pub(crate) fn after_sign(sign: Sign, tokens: &[Token]) -> Result<&[Token], Stop>
    ensures { Gives (λ x. x.now) result (spec.after_sign sign tokens.now) }
{
    if begins(sign, tokens) {
        Ok(after_first(tokens))
    } else {
        Err(Stop::Fault(Fault::Syntax))
    }
}

/// The tokens behind this sign, where there is to be one.
pub(crate) fn after_closing(sign: Option<Sign>, tokens: &[Token]) -> Result<&[Token], Stop>
    ensures { Gives (λ x. x.now) result (spec.after_closing sign tokens.now) }
{
    match sign {
        Some(sign) => after_sign(sign, tokens),
        None => Ok(tokens),
    }
}

fn follow_kind(kind: &TokenKind) -> Option<Follow>
    ensures { result ≡ tables.follow_kind kind.now }
{
    match kind {
        TokenKind::Sign(sign) => follow_of(*sign),
        _ => None,
    }
}

fn head_follow(tokens: &[Token]) -> Option<Follow>
    ensures { result ≡ tables.head_follow tokens.now }
{
    match tokens {
        [first, ..] => follow_kind(&first.kind),
        [] => None,
    }
}

/// What the formula goes on with, at the least level or above.
pub(crate) fn next_follow(least: u32, part: &Part, tokens: &[Token]) -> Option<Follow>
    ensures { result ≡ spec.next_follow least part.now (tables.head_follow tokens.now) }
{
    match head_follow(tokens) {
        Some(follow)
            if least <= level_of(row_of(follow))
                && admits(row_of(follow), part.level)
                && !part.loose => { Some(follow) }
        _ => None,
    }
}

fn name_of(alloc: Global, token: &Token) -> Result<Identifier, Stop>
    ensures { Gives (λ x. x) result (spec.name_of token.now (token.now).kind) }
{
    match &token.kind {
        TokenKind::Word(name) => Ok(Identifier {
            name: name.copied(alloc)?,
            place: token.start,
        }),
        _ => Err(Stop::Fault(Fault::Syntax)),
    }
}

/// The identifier at the front, and the tokens behind it.
pub(crate) fn name_at(alloc: Global, tokens: &[Token]) -> Result<(Identifier, &[Token]), Stop>
    ensures { Gives (λ x. (x.0, x.1.now)) result (spec.name_at tokens.now) }
{
    match tokens {
        [first, rest @ ..] => {
            let name = name_of(alloc, first)?;
            Ok((name, rest))
        }
        [] => Err(Stop::Fault(Fault::Syntax)),
    }
}

/// Whether a comma stands at the front, or a dot; and the tokens behind it.
#[tactic(auto, unfolding(crate::specs::steps::Climbing::separator))]
pub(crate) fn separator(tokens: &[Token]) -> Result<(bool, &[Token]), Stop>
    ensures { Gives (λ x. (x.0, x.1.now)) result (spec.separator tokens.now) }
{
    if begins(Sign::Comma, tokens) {
        return Ok((true, after_first(tokens)));
    }
    if begins(Sign::Dot, tokens) {
        return Ok((false, after_first(tokens)));
    }
    Err(Stop::Fault(Fault::Syntax))
}

fn sign_mark(sign: Sign) -> Result<Mark, Stop>
    ensures { Gives (λ x. x) result (spec.sign_mark sign) }
{
    match sign {
        Sign::LeftParenthesis => Ok(Mark::Open),
        Sign::RightParenthesis => Ok(Mark::Close),
        Sign::MapsTo => Ok(Mark::MapsTo),
        _ => Err(Stop::Fault(Fault::Syntax)),
    }
}

fn mark_of(alloc: Global, token: &Token) -> Result<Mark, Stop>
    ensures { Gives (λ x. x) result (spec.mark_of token.now (token.now).kind) }
{
    match &token.kind {
        TokenKind::Word(name) => Ok(Mark::Identifier(Identifier {
            name: name.copied(alloc)?,
            place: token.start,
        })),
        TokenKind::Sign(sign) => sign_mark(*sign),
        _ => Err(Stop::Fault(Fault::Syntax)),
    }
}

/// The token of a pattern at the front.
pub(crate) fn mark_at(alloc: Global, tokens: &[Token]) -> Result<Mark, Stop>
    ensures { Gives (λ x. x) result (spec.mark_at tokens.now) }
{
    match tokens {
        [first, ..] => mark_of(alloc, first),
        [] => Err(Stop::Fault(Fault::Syntax)),
    }
}

/// Whether an atom of a pattern is due behind the mark, and within how many parentheses.
pub(crate) fn state_after(due: bool, depth: usize, mark: &Mark) -> Result<(bool, usize), Stop>
    requires { depth + 1 < 2 ^ 64 }
    ensures exact { Gives (λ x. x) result (spec.state_after due depth mark.now) }
    ensures low { IfOk result (λ x. x.1 ≤ depth + 1) }
{
    match (due, mark) {
        (true, Mark::Identifier(_)) => Ok((false, depth)),
        (true, Mark::Open) => Ok((true, depth + 1)),
        (false, Mark::Close) if depth > 0 => Ok((false, depth - 1)),
        (false, Mark::MapsTo) => Ok((true, depth)),
        _ => Err(Stop::Fault(Fault::Syntax)),
    }
}

/// Whether the pattern ends before the dot at the front.
pub(crate) fn ends_pattern(due: bool, depth: usize, tokens: &[Token]) -> bool
    ensures { result ≡ spec.ends_pattern due depth tokens.now }
{
    !due && depth == 0 && begins(Sign::Dot, tokens)
}
