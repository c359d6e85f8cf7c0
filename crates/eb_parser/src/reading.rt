ghost use Rattle.std.specs.Prelude.{◌≡◌, ◌<◌, ◌≤◌, ◌^◌, ◌-◌, ◌+◌, length, IfOk, option_map};
ghost use Rattle.eb_parser.specs.steps.Climbing as spec;
ghost use Rattle.eb_parser.specs.steps.Climbing.{Gives};

use super::fault::{Fault, Stop};
use super::front::{after_closing, after_first, after_sign, begins, next_follow};
use super::names::{binding, names};
use super::part::{
    Part, bound_by, bracketed, built, called, comprehended, constant, empty_braces, extended,
    inverted, joined, leaf, partitioned, prefixed, quantified,
};
use super::table::{Follow, Start, call_least, closing_sign, start_of};
use eb_lexer::{Token, TokenKind};
use eb_signs::{
    Sign, call_level, call_takes, group_of, is_pred, level, prefix_level, prefix_takes, right_of,
    takes,
};
use eb_syntax::{Ast, Binder, Call, Identifiers, Node, Operator, Prefix, Quantifier};
use sqlite_items::Items;
use std::alloc::Global;

/// The formula at the front, of a height below the depth, with operators of the least level or above; and the tokens behind it.
#[cycle(reading)]
#[tactic(auto, using(crate::proofs::Equations::read_below, crate::proofs::Equations::read_zero))]
pub(crate) fn read(
    alloc: Global,
    depth: u32,
    least: u32,
    tokens: &[Token],
) -> Result<(Part, &[Token]), Stop>
    ensures exact { Gives (λ x. (x.0, x.1.now)) result (spec.read depth least tokens.now) }
    ensures low { IfOk result (λ x. x.0.height < depth) }
{
    if depth == 0 {
        return Err(Stop::Fault(Fault::TooDeep));
    }
    let (part, rest) = primary(alloc, depth - 1, least, tokens)?;
    climb(alloc, depth - 1, least, part, rest)
}

#[cycle(reading)]
fn primary(
    alloc: Global,
    depth: u32,
    least: u32,
    tokens: &[Token],
) -> Result<(Part, &[Token]), Stop>
    requires { depth + 1 < 2 ^ 32 }
    ensures exact { Gives (λ x. (x.0, x.1.now)) result (spec.primary (spec.read depth) least tokens.now) }
    ensures low { IfOk result (λ x. x.0.height ≤ depth) }
{
    match tokens {
        [first, rest @ ..] => primary_by(alloc, depth, least, first, rest),
        [] => Err(Stop::Fault(Fault::Syntax)),
    }
}

#[cycle(reading)]
fn primary_by<'a>(
    alloc: Global,
    depth: u32,
    least: u32,
    first: &Token,
    rest: &'a [Token],
) -> Result<(Part, &'a [Token]), Stop>
    requires { depth + 1 < 2 ^ 32 }
    ensures exact { Gives (λ x. (x.0, x.1.now)) result (spec.primary_by (spec.read depth) least first.now rest.now (first.now).kind) }
    ensures low { IfOk result (λ x. x.0.height ≤ depth) }
{
    match &first.kind {
        TokenKind::Word(name) => {
            let name = name.copied(alloc)?;
            leaf_at(
                least,
                leaf(alloc, Node::Identifier(name), first.start)?,
                rest,
            )
        }
        TokenKind::Primed(name) => {
            let name = name.copied(alloc)?;
            leaf_at(least, leaf(alloc, Node::Primed(name), first.start)?, rest)
        }
        TokenKind::Number(n) => {
            leaf_at(least, leaf(alloc, Node::Number(*n), first.start)?, rest)
        }
        TokenKind::Label(_) => Err(Stop::Fault(Fault::Syntax)),
        TokenKind::Sign(sign) => begun_by(alloc, depth, least, first, rest, start_of(*sign)),
    }
}

#[tactic(auto, using(crate::proofs::Equations::leaf_closed))]
fn leaf_at(least: u32, part: Part, rest: &[Token]) -> Result<(Part, &[Token]), Stop>
    ensures exact { Gives (λ x. (x.0, x.1.now)) result (spec.leaf_at least part rest.now) }
    ensures low { IfOk result (λ x. x.0 ≡ part) }
{
    closed(least <= part.level, None, part, rest)
}

/// The tokens behind the sign that is to follow, where that holds which is asked of the formula before it.
#[tactic(auto, unfolding(crate::specs::steps::Climbing::behind))]
fn behind(holds: bool, sign: Option<Sign>, tokens: &[Token]) -> Result<&[Token], Stop>
    ensures { Gives (λ rest. rest.now) result (spec.behind holds sign tokens.now) }
{
    if holds {
        after_closing(sign, tokens)
    } else {
        Err(Stop::Fault(Fault::Syntax))
    }
}

/// The formula, where it may stand here and the sign that is to follow it does; and the tokens behind that.
#[tactic(auto, unfolding(crate::specs::steps::Climbing::closed))]
fn closed(
    holds: bool,
    sign: Option<Sign>,
    part: Part,
    tokens: &[Token],
) -> Result<(Part, &[Token]), Stop>
    ensures exact { Gives (λ x. (x.0, x.1.now)) result (spec.closed holds sign part tokens.now) }
    ensures same { IfOk result (λ x. x.0 ≡ part) }
{
    match behind(holds, sign, tokens) {
        Ok(rest) => Ok((part, rest)),
        Err(e) => Err(e),
    }
}

#[cycle(reading)]
fn begun_by<'a>(
    alloc: Global,
    depth: u32,
    least: u32,
    first: &Token,
    rest: &'a [Token],
    start: Start,
) -> Result<(Part, &'a [Token]), Stop>
    requires { depth + 1 < 2 ^ 32 }
    ensures exact { Gives (λ x. (x.0, x.1.now)) result (spec.begun_by (spec.read depth) least first.now rest.now start) }
    ensures low { IfOk result (λ x. x.0.height ≤ depth) }
{
    match start {
        Start::Constant(found) => leaf_at(least, constant(alloc, found, first.start)?, rest),
        Start::Prefix(prefix) => prefix_at(alloc, depth, least, first, prefix, rest),
        Start::Quantifier(quantifier) => {
            quantifier_at(alloc, depth, least, first, quantifier, rest)
        }
        Start::Binder(binder) => binder_at(alloc, depth, least, first, binder, rest),
        Start::Call(call) => call_at(alloc, depth, least, first, call, rest),
        Start::Partition => partition_at(alloc, depth, least, first, rest),
        Start::Parenthesis => parentheses_at(alloc, depth, least, first, rest),
        Start::Brace => brace_at(alloc, depth, least, first, rest),
        Start::Other => Err(Stop::Fault(Fault::Syntax)),
    }
}

#[cycle(reading)]
#[tactic(auto, using(crate::proofs::Equations::prefix_closed))]
fn prefix_at<'a>(
    alloc: Global,
    depth: u32,
    least: u32,
    first: &Token,
    prefix: Prefix,
    rest: &'a [Token],
) -> Result<(Part, &'a [Token]), Stop>
    requires { depth + 1 < 2 ^ 32 }
    ensures exact { Gives (λ x. (x.0, x.1.now)) result (spec.prefix_at (spec.read depth) least first.now prefix rest.now) }
    ensures low { IfOk result (λ x. x.0.height ≤ depth) }
{
    if least > prefix_level(prefix) {
        return Err(Stop::Fault(Fault::Syntax));
    }
    let (part, rest) = read(alloc, depth, prefix_level(prefix), rest)?;
    let (part, rest) = closed(prefix_takes(prefix, part.level), None, part, rest)?;
    Ok((prefixed(alloc, first, prefix, part)?, rest))
}

#[cycle(reading)]
#[tactic(auto, using(crate::proofs::Equations::predicate_closed))]
fn predicate(alloc: Global, depth: u32, tokens: &[Token]) -> Result<(Part, &[Token]), Stop>
    ensures exact { Gives (λ x. (x.0, x.1.now)) result (spec.predicate (spec.read depth) tokens.now) }
    ensures low { IfOk result (λ x. x.0.height < depth) }
{
    let (part, rest) = read(alloc, depth, level::PRED, tokens)?;
    closed(is_pred(part.level), None, part, rest)
}

#[cycle(reading)]
#[tactic(auto, unfolding(crate::specs::steps::Climbing::quantifier_at))]
fn quantifier_at<'a>(
    alloc: Global,
    depth: u32,
    least: u32,
    first: &Token,
    quantifier: Quantifier,
    rest: &'a [Token],
) -> Result<(Part, &'a [Token]), Stop>
    requires { depth + 1 < 2 ^ 32 }
    ensures exact { Gives (λ x. (x.0, x.1.now)) result (spec.quantifier_at (spec.read depth) least first.now quantifier rest.now) }
    ensures low { IfOk result (λ x. x.0.height ≤ depth) }
{
    if least > level::LIT {
        return Err(Stop::Fault(Fault::Syntax));
    }
    let (names, rest) = names(alloc, rest)?;
    let (part, rest) = predicate(alloc, depth, rest)?;
    Ok((quantified(alloc, first, quantifier, names, part)?, rest))
}

#[cycle(reading)]
#[tactic(auto, using(crate::proofs::Equations::call_closed))]
fn call_at<'a>(
    alloc: Global,
    depth: u32,
    least: u32,
    first: &Token,
    call: Call,
    rest: &'a [Token],
) -> Result<(Part, &'a [Token]), Stop>
    requires { depth + 1 < 2 ^ 32 }
    ensures exact { Gives (λ x. (x.0, x.1.now)) result (spec.call_at (spec.read depth) least first.now call rest.now) }
    ensures low { IfOk result (λ x. x.0.height ≤ depth) }
{
    if least > call_level(call) {
        return Err(Stop::Fault(Fault::Syntax));
    }
    let rest = after_sign(Sign::LeftParenthesis, rest)?;
    let (part, rest) = read(alloc, depth, call_least(call), rest)?;
    let holds = call_takes(call, part.level);
    let (part, rest) = closed(holds, Some(Sign::RightParenthesis), part, rest)?;
    Ok((called(alloc, first, call, part)?, rest))
}

/// A formula of either kind in parentheses: its kind says which production it is.
#[cycle(reading)]
#[tactic(auto, using(crate::proofs::Equations::parentheses_closed))]
fn parentheses_at<'a>(
    alloc: Global,
    depth: u32,
    least: u32,
    first: &Token,
    rest: &'a [Token],
) -> Result<(Part, &'a [Token]), Stop>
    requires { depth + 1 < 2 ^ 32 }
    ensures exact { Gives (λ x. (x.0, x.1.now)) result (spec.parentheses_at (spec.read depth) least first.now rest.now) }
    ensures low { IfOk result (λ x. x.0.height ≤ depth) }
{
    let (part, rest) = read(alloc, depth, level::PRED, rest)?;
    let (part, rest) = closed(true, Some(Sign::RightParenthesis), part, rest)?;
    leaf_at(least, bracketed(alloc, first, part)?, rest)
}

/// Behind the first of some expressions, the others, each behind a comma: all of them, and the greatest height.
#[cycle(reading)]
fn row(
    alloc: Global,
    depth: u32,
    first: Part,
    tokens: &[Token],
) -> Result<(Items<Ast>, u32, &[Token]), Stop>
    requires { first.height < depth }
    ensures exact { Gives (λ x. (x.0, x.1, x.2.now)) result (spec.row_after (spec.read depth) (length tokens.now) first tokens.now) }
    ensures low { IfOk result (λ x. x.1 < depth) }
{
    let mut height = first.height;
    let mut members = Items::new(alloc);
    members.push(first.tree.into_inner())?;
    let mut rest = tokens;
    for _ in 0..tokens.len() {
        if !begins(Sign::Comma, rest) {
            return Ok((members, height, rest));
        }
        let (part, after) = read(alloc, depth, level::EXPR, after_first(rest))?;
        height = height.max(part.height);
        members.push(part.tree.into_inner())?;
        rest = after;
    }
    if begins(Sign::Comma, rest) {
        return Err(Stop::Fault(Fault::Syntax));
    }
    Ok((members, height, rest))
}

#[cycle(reading)]
#[tactic(auto, using(crate::proofs::Equations::partition_closed))]
fn partition_at<'a>(
    alloc: Global,
    depth: u32,
    least: u32,
    first: &Token,
    rest: &'a [Token],
) -> Result<(Part, &'a [Token]), Stop>
    requires { depth + 1 < 2 ^ 32 }
    ensures exact { Gives (λ x. (x.0, x.1.now)) result (spec.partition_at (spec.read depth) least first.now rest.now) }
    ensures low { IfOk result (λ x. x.0.height ≤ depth) }
{
    if least > level::LIT {
        return Err(Stop::Fault(Fault::Syntax));
    }
    let rest = after_sign(Sign::LeftParenthesis, rest)?;
    let (part, rest) = read(alloc, depth, level::EXPR, rest)?;
    let (members, height, rest) = row(alloc, depth, part, rest)?;
    let part = partitioned(alloc, first, members, height)?;
    closed(true, Some(Sign::RightParenthesis), part, rest)
}

/// A predicate, a bar and an expression.
#[cycle(reading)]
#[tactic(auto, using(crate::proofs::Equations::body_closed))]
fn body(alloc: Global, depth: u32, tokens: &[Token]) -> Result<(Part, Part, &[Token]), Stop>
    ensures exact { Gives (λ x. (x.0, x.1, x.2.now)) result (spec.body (spec.read depth) tokens.now) }
    ensures low { IfOk result (λ x. (x.0.height < depth) × (x.1.height < depth)) }
{
    let (condition, rest) = predicate(alloc, depth, tokens)?;
    let (condition, rest) = closed(true, Some(Sign::Bar), condition, rest)?;
    let (value, after) = read(alloc, depth, level::EXPR, rest)?;
    Ok((condition, value, after))
}

#[cycle(reading)]
#[tactic(auto, unfolding(crate::specs::steps::Climbing::binder_at))]
fn binder_at<'a>(
    alloc: Global,
    depth: u32,
    least: u32,
    first: &Token,
    binder: Binder,
    rest: &'a [Token],
) -> Result<(Part, &'a [Token]), Stop>
    requires { depth + 1 < 2 ^ 32 }
    ensures exact { Gives (λ x. (x.0, x.1.now)) result (spec.binder_at (spec.read depth) least first.now binder rest.now) }
    ensures low { IfOk result (λ x. x.0.height ≤ depth) }
{
    if least > level::EXPR {
        return Err(Stop::Fault(Fault::Syntax));
    }
    let (bound, rest) = binding(alloc, binder, rest)?;
    let (condition, value, rest) = body(alloc, depth, rest)?;
    let part = bound_by(alloc, first, binder, bound, condition, value)?;
    Ok((part, rest))
}

/// Behind the names and the dot in braces.
#[cycle(reading)]
#[tactic(auto, using(crate::proofs::Equations::comprehension_closed))]
fn comprehension_at<'a>(
    alloc: Global,
    depth: u32,
    first: &Token,
    names: Identifiers,
    rest: &'a [Token],
) -> Result<(Part, &'a [Token]), Stop>
    requires { depth + 1 < 2 ^ 32 }
    ensures exact { Gives (λ x. (x.0, x.1.now)) result (spec.comprehension_at (spec.read depth) first.now names rest.now) }
    ensures low { IfOk result (λ x. x.0.height ≤ depth) }
{
    let (condition, value, rest) = body(alloc, depth, rest)?;
    let part = comprehended(alloc, first, names, condition, value)?;
    closed(true, Some(Sign::RightBrace), part, rest)
}

/// Behind the expression and the bar in braces.
#[cycle(reading)]
#[tactic(auto, using(crate::proofs::Equations::builder_closed))]
fn builder_at<'a>(
    alloc: Global,
    depth: u32,
    first: &Token,
    value: Part,
    rest: &'a [Token],
) -> Result<(Part, &'a [Token]), Stop>
    requires bound { depth + 1 < 2 ^ 32 }
    requires low { value.height < depth }
    ensures exact { Gives (λ x. (x.0, x.1.now)) result (spec.builder_at (spec.read depth) first.now value rest.now) }
    ensures low { IfOk result (λ x. x.0.height ≤ depth) }
{
    let (condition, rest) = predicate(alloc, depth, rest)?;
    let part = built(alloc, first, value, condition)?;
    closed(true, Some(Sign::RightBrace), part, rest)
}

/// Behind the first expression in braces.
#[cycle(reading)]
#[tactic(auto, using(crate::proofs::Equations::extension_closed))]
fn extension_at<'a>(
    alloc: Global,
    depth: u32,
    first: &Token,
    value: Part,
    rest: &'a [Token],
) -> Result<(Part, &'a [Token]), Stop>
    requires bound { depth + 1 < 2 ^ 32 }
    requires low { value.height < depth }
    ensures exact { Gives (λ x. (x.0, x.1.now)) result (spec.extension_at (spec.read depth) first.now value rest.now) }
    ensures low { IfOk result (λ x. x.0.height ≤ depth) }
{
    let (members, height, rest) = row(alloc, depth, value, rest)?;
    let part = extended(alloc, first, members, height)?;
    closed(true, Some(Sign::RightBrace), part, rest)
}

#[cycle(reading)]
#[tactic(auto, unfolding(crate::specs::steps::Climbing::members_at))]
fn members_at<'a>(
    alloc: Global,
    depth: u32,
    first: &Token,
    rest: &'a [Token],
) -> Result<(Part, &'a [Token]), Stop>
    requires { depth + 1 < 2 ^ 32 }
    ensures exact { Gives (λ x. (x.0, x.1.now)) result (spec.members_at (spec.read depth) first.now rest.now) }
    ensures low { IfOk result (λ x. x.0.height ≤ depth) }
{
    let (value, rest) = read(alloc, depth, level::EXPR, rest)?;
    if begins(Sign::Bar, rest) {
        builder_at(alloc, depth, first, value, after_first(rest))
    } else {
        extension_at(alloc, depth, first, value, rest)
    }
}

/// Behind a brace: names and a dot begin a comprehension.
#[cycle(reading)]
#[tactic(auto, unfolding(crate::specs::steps::Climbing::brace_at))]
fn brace_at<'a>(
    alloc: Global,
    depth: u32,
    least: u32,
    first: &Token,
    rest: &'a [Token],
) -> Result<(Part, &'a [Token]), Stop>
    requires { depth + 1 < 2 ^ 32 }
    ensures exact { Gives (λ x. (x.0, x.1.now)) result (spec.brace_at (spec.read depth) least first.now rest.now) }
    ensures low { IfOk result (λ x. x.0.height ≤ depth) }
{
    if least > level::PRIM {
        return Err(Stop::Fault(Fault::Syntax));
    }
    match names(alloc, rest) {
        Ok((names, after)) => comprehension_at(alloc, depth, first, names, after),
        Err(Stop::Memory) => Err(Stop::Memory),
        Err(Stop::Fault(_)) => {
            if begins(Sign::RightBrace, rest) {
                return Ok((empty_braces(alloc, first)?, after_first(rest)));
            }
            members_at(alloc, depth, first, rest)
        }
    }
}

/// The second part of an operator, and the tokens behind the bracket that closes.
#[cycle(reading)]
#[tactic(auto, using(crate::proofs::Equations::operand_closed))]
fn operand_at(
    alloc: Global,
    depth: u32,
    operator: Operator,
    tokens: &[Token],
) -> Result<(Part, &[Token]), Stop>
    ensures exact { Gives (λ x. (x.0, x.1.now)) result (spec.operand_at (spec.read depth) operator tokens.now) }
    ensures low { IfOk result (λ x. x.0.height < depth) }
{
    let group = group_of(operator);
    let (part, rest) = read(alloc, depth, right_of(group), tokens)?;
    closed(takes(group, part.level), closing_sign(operator), part, rest)
}

/// The formula with what goes on with it, and the tokens behind that; or the formula alone, where no operand can be read.
#[cycle(reading)]
#[tactic(auto, unfolding(crate::specs::steps::Climbing::turn))]
fn turn(
    alloc: Global,
    depth: u32,
    part: Part,
    follow: Follow,
    tokens: &[Token],
) -> Result<(Part, Option<&[Token]>), Stop>
    requires bound { depth + 1 < 2 ^ 32 }
    requires low { part.height < depth }
    ensures exact { Gives (λ x. (x.0, option_map (λ r. r.now) x.1)) result (spec.tried part (spec.turn (spec.read depth) part follow tokens.now)) }
    ensures low { IfOk result (λ x. x.0.height ≤ depth) }
{
    let operator = match follow {
        Follow::Operator(operator) => operator,
        Follow::Inverse => return Ok((inverted(alloc, part)?, Some(tokens))),
    };
    match operand_at(alloc, depth, operator, tokens) {
        Ok((right, after)) => Ok((joined(alloc, operator, part, right)?, Some(after))),
        Err(Stop::Fault(Fault::Syntax)) => Ok((part, None)),
        Err(e) => Err(e),
    }
}

/// Goes on with operators and their operands. Where no operand can be read, the formula ends before the operator.
#[cycle(reading)]
fn climb(
    alloc: Global,
    depth: u32,
    least: u32,
    part: Part,
    tokens: &[Token],
) -> Result<(Part, &[Token]), Stop>
    requires low { part.height ≤ depth }
    requires bound { depth + 1 < 2 ^ 32 }
    ensures exact { Gives (λ x. (x.0, x.1.now)) result (spec.climb (spec.read depth) depth least depth part tokens.now) }
    ensures low { IfOk result (λ x. x.0.height ≤ depth) }
{
    let mut part = part;
    let mut rest = tokens;
    for turns in 0..depth {
        let Some(follow) = next_follow(least, &part, rest) else {
            return Ok((part, rest));
        };
        if part.height >= depth {
            return Err(Stop::Fault(Fault::TooDeep));
        }
        let (next, after) = turn(alloc, depth, part, follow, after_first(rest))?;
        let Some(after) = after else {
            return Ok((next, rest));
        };
        part = next;
        rest = after;
    }
    match next_follow(least, &part, rest) {
        Some(_) => Err(Stop::Fault(Fault::TooDeep)),
        None => Ok((part, rest)),
    }
}
