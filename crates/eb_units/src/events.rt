//! Events.
ghost use Rattle.std.specs.Prelude.{◌≡◌, ◌<◌, ◌^◌, length, drop, IfErr};
ghost use Rattle.eb_parser.specs.steps.Finding.{Finds};
ghost use Rattle.eb_units.specs.steps.Descending.{IsPlaced};
ghost use Rattle.eb_units.specs.steps.Descending as spec;

use super::front::{at_sign, name_at, next, sign_at};
use super::lists::names_at;
use super::many::{Listed, many};
use eb_lexer::Tokens;
use eb_parser::ParseFault;
use eb_signs::Sign;
use eb_syntax::{
    Action, Actions, Convergence, Event, Identifier, Inheritance, LabelledPredicate, NamesClause,
    PredicatesClause,
};
use std::alloc::Global;

fn convergence_at(tokens: &Tokens, at: u32) -> Option<Convergence>
    ensures { result ≡ spec.convergence_at (drop at tokens.now) }
{
    if at_sign(tokens, Sign::Ordinary, at) {
        Some(Convergence::Ordinary)
    } else if at_sign(tokens, Sign::Convergent, at) {
        Some(Convergence::Convergent)
    } else if at_sign(tokens, Sign::Anticipated, at) {
        Some(Convergence::Anticipated)
    } else {
        None
    }
}

fn behind_convergence(tokens: &Tokens, convergence: Option<Convergence>, at: u32) -> u32
    requires { length tokens.now < 2 ^ 32 }
    ensures { drop result tokens.now ≡ spec.behind_convergence convergence (drop at tokens.now) }
{
    match convergence {
        Some(_) => next(tokens, at),
        None => at,
    }
}

/// The names behind this sign.
#[tactic(auto, unfolding(crate::specs::steps::Descending::names_part_at))]
fn names_part_at(
    alloc: Global,
    tokens: &Tokens,
    sign: Sign,
    at: u32,
) -> Result<(NamesClause, u32), ParseFault>
    requires { length tokens.now < 2 ^ 32 }
    ensures exact { Finds tokens.now result (spec.names_part_at sign (spec.room tokens.now) (drop at tokens.now)) }
    ensures placed { IfErr result (IsPlaced tokens.now) }
{
    let (place, rest) = sign_at(tokens, sign, at)?;
    let (names, rest) = names_at(alloc, tokens, rest)?;
    Ok((NamesClause { place, names }, rest))
}

/// The predicates behind this sign.
#[tactic(auto, unfolding(crate::specs::steps::Descending::predicates_part_at))]
fn predicates_part_at(
    alloc: Global,
    tokens: &Tokens,
    sign: Sign,
    at: u32,
) -> Result<(PredicatesClause, u32), ParseFault>
    requires { length tokens.now < 2 ^ 32 }
    ensures exact { Finds tokens.now result (spec.predicates_part_at sign 201 (spec.room tokens.now) (drop at tokens.now)) }
    ensures placed { IfErr result (IsPlaced tokens.now) }
{
    let (place, rest) = sign_at(tokens, sign, at)?;
    let (predicates, rest) = many::<LabelledPredicate>(alloc, tokens, rest)?;
    Ok((PredicatesClause { place, predicates }, rest))
}

#[tactic(auto, unfolding(crate::specs::steps::Descending::refines_at))]
fn refines_at(
    alloc: Global,
    tokens: &Tokens,
    at: u32,
) -> Result<(Option<Inheritance>, u32), ParseFault>
    requires { length tokens.now < 2 ^ 32 }
    ensures exact { Finds tokens.now result (spec.refines_at (spec.room tokens.now) (drop at tokens.now)) }
    ensures placed { IfErr result (IsPlaced tokens.now) }
{
    let (clause, rest) = names_part_at(alloc, tokens, Sign::Refines, at)?;
    Ok((Some(Inheritance::Refines(clause)), rest))
}

#[tactic(auto, unfolding(crate::specs::steps::Descending::extends_at))]
fn extends_at(
    alloc: Global,
    tokens: &Tokens,
    at: u32,
) -> Result<(Option<Inheritance>, u32), ParseFault>
    requires { length tokens.now < 2 ^ 32 }
    ensures exact { Finds tokens.now result (spec.extends_at (spec.room tokens.now) (drop at tokens.now)) }
    ensures placed { IfErr result (IsPlaced tokens.now) }
{
    let (clause, rest) = names_part_at(alloc, tokens, Sign::Extends, at)?;
    Ok((Some(Inheritance::Extends(clause)), rest))
}

#[tactic(auto, unfolding(crate::specs::steps::Descending::inherits_at))]
fn inherits_at(
    alloc: Global,
    tokens: &Tokens,
    at: u32,
) -> Result<(Option<Inheritance>, u32), ParseFault>
    requires { length tokens.now < 2 ^ 32 }
    ensures exact { Finds tokens.now result (spec.inherits_at (spec.room tokens.now) (drop at tokens.now)) }
    ensures placed { IfErr result (IsPlaced tokens.now) }
{
    if at_sign(tokens, Sign::Refines, at) {
        refines_at(alloc, tokens, at)
    } else if at_sign(tokens, Sign::Extends, at) {
        extends_at(alloc, tokens, at)
    } else {
        Ok((None, at))
    }
}

#[tactic(auto, unfolding(crate::specs::steps::Descending::parameters_at))]
fn parameters_at(
    alloc: Global,
    tokens: &Tokens,
    at: u32,
) -> Result<(Option<NamesClause>, u32), ParseFault>
    requires { length tokens.now < 2 ^ 32 }
    ensures exact { Finds tokens.now result (spec.parameters_at (spec.room tokens.now) (drop at tokens.now)) }
    ensures placed { IfErr result (IsPlaced tokens.now) }
{
    if !at_sign(tokens, Sign::Any, at) {
        return Ok((None, at));
    }
    let (clause, rest) = names_part_at(alloc, tokens, Sign::Any, at)?;
    Ok((Some(clause), rest))
}

/// The predicates behind this sign, where it stands here.
#[tactic(auto, unfolding(crate::specs::steps::Descending::part_behind_at))]
fn part_behind_at(
    alloc: Global,
    tokens: &Tokens,
    sign: Sign,
    at: u32,
) -> Result<(Option<PredicatesClause>, u32), ParseFault>
    requires { length tokens.now < 2 ^ 32 }
    ensures exact { Finds tokens.now result (spec.part_behind_at sign 201 (spec.room tokens.now) (drop at tokens.now)) }
    ensures placed { IfErr result (IsPlaced tokens.now) }
{
    if !at_sign(tokens, sign, at) {
        return Ok((None, at));
    }
    let (clause, rest) = predicates_part_at(alloc, tokens, sign, at)?;
    Ok((Some(clause), rest))
}

#[tactic(auto, unfolding(crate::specs::steps::Descending::guards_at))]
fn guards_at(
    alloc: Global,
    tokens: &Tokens,
    at: u32,
) -> Result<(Option<PredicatesClause>, u32), ParseFault>
    requires { length tokens.now < 2 ^ 32 }
    ensures exact { Finds tokens.now result (spec.guards_at 201 (spec.room tokens.now) (drop at tokens.now)) }
    ensures placed { IfErr result (IsPlaced tokens.now) }
{
    if at_sign(tokens, Sign::Where, at) {
        part_behind_at(alloc, tokens, Sign::Where, at)
    } else {
        part_behind_at(alloc, tokens, Sign::When, at)
    }
}

/// The actions behind `then` or `begin`, none without it.
#[tactic(auto, unfolding(crate::specs::steps::Descending::does_at))]
fn does_at(alloc: Global, tokens: &Tokens, at: u32) -> Result<(Actions, u32), ParseFault>
    requires { length tokens.now < 2 ^ 32 }
    ensures exact { Finds tokens.now result (spec.does_at 201 (spec.room tokens.now) (drop at tokens.now)) }
    ensures placed { IfErr result (IsPlaced tokens.now) }
{
    if at_sign(tokens, Sign::Then, at) || at_sign(tokens, Sign::Begin, at) {
        many::<Action>(alloc, tokens, next(tokens, at))
    } else {
        Ok((Actions::new(alloc), at))
    }
}

/// An event from its word to its parameters.
#[tactic(auto, unfolding(crate::specs::steps::Descending::event_head_at))]
fn event_head_at(
    alloc: Global,
    tokens: &Tokens,
    at: u32,
) -> Result<((Identifier, Option<Inheritance>, Option<NamesClause>), u32), ParseFault>
    requires { length tokens.now < 2 ^ 32 }
    ensures exact { Finds tokens.now result (spec.event_head_at (spec.room tokens.now) (drop at tokens.now)) }
    ensures placed { IfErr result (IsPlaced tokens.now) }
{
    let (_, rest) = sign_at(tokens, Sign::Event, at)?;
    let (name, rest) = name_at(alloc, tokens, rest)?;
    let (inheritance, rest) = inherits_at(alloc, tokens, rest)?;
    let (parameters, rest) = parameters_at(alloc, tokens, rest)?;
    Ok(((name, inheritance, parameters), rest))
}

/// An event from its guards on.
#[tactic(auto, unfolding(crate::specs::steps::Descending::event_body_at))]
fn event_body_at(
    alloc: Global,
    tokens: &Tokens,
    at: u32,
) -> Result<
    (
        (Option<PredicatesClause>, Option<PredicatesClause>, Actions),
        u32,
    ),
    ParseFault,
>
    requires { length tokens.now < 2 ^ 32 }
    ensures exact { Finds tokens.now result (spec.event_body_at 201 (spec.room tokens.now) (drop at tokens.now)) }
    ensures placed { IfErr result (IsPlaced tokens.now) }
{
    let (guards, rest) = guards_at(alloc, tokens, at)?;
    let (witnesses, rest) = part_behind_at(alloc, tokens, Sign::With, rest)?;
    let (actions, rest) = does_at(alloc, tokens, rest)?;
    let (_, rest) = sign_at(tokens, Sign::End, rest)?;
    Ok(((guards, witnesses, actions), rest))
}

/// The event here.
impl Listed for Event {
    ghost begins = { spec.opens_event };

    ghost reads = { λ ts. spec.event_at 201 (spec.room ts) };

    #[tactic(auto, unfolding(crate::specs::steps::Descending::opens_event))]
    fn is_here(tokens: &Tokens, at: u32) -> bool {
        (at_sign(tokens, Sign::Event, at) || at_sign(tokens, Sign::Ordinary, at))
            || (at_sign(tokens, Sign::Convergent, at) || at_sign(tokens, Sign::Anticipated, at))
    }

    #[tactic(auto, unfolding(crate::specs::steps::Descending::event_at))]
    fn take(alloc: Global, tokens: &Tokens, at: u32) -> Result<(Event, u32), ParseFault> {
        let convergence = convergence_at(tokens, at);
        let rest = behind_convergence(tokens, convergence, at);
        let ((name, inheritance, parameters), rest) = event_head_at(alloc, tokens, rest)?;
        let ((guards, witnesses, actions), rest) = event_body_at(alloc, tokens, rest)?;
        Ok((
            Event {
                convergence,
                name,
                inheritance,
                parameters,
                guards,
                witnesses,
                actions,
            },
            rest,
        ))
    }
}
