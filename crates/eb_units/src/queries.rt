//! Queries.
ghost use Rattle.std.specs.Prelude.{◌<◌, ◌^◌, length, drop, IfErr};
ghost use Rattle.eb_signs.specs.declared.sign.Sign.TheVariants as sign;
ghost use Rattle.eb_parser.specs.steps.Finding.{Finds};
ghost use Rattle.eb_units.specs.steps.Descending.{IsPlaced};
ghost use Rattle.eb_units.specs.steps.Descending as spec;

use super::front::{
    at_name, at_sign, at_word, label_at, name_at, next, number_at, sign_at, word_at,
};
use super::many::{Listed, many, more};
use eb_lexer::Tokens;
use eb_names::{Name, Names};
use eb_parser::ParseFault;
use eb_signs::Sign;
use eb_syntax::{Goal, Queries, Query};
use std::alloc::Global;

/// A name without its place.
#[tactic(auto, unfolding(crate::specs::steps::Descending::event_name_at))]
fn event_name_at(alloc: Global, tokens: &Tokens, at: u32) -> Result<(Name, u32), ParseFault>
    requires { length tokens.now < 2 ^ 32 }
    ensures exact { Finds tokens.now result (spec.event_name_at (drop at tokens.now)) }
    ensures placed { IfErr result (IsPlaced tokens.now) }
{
    let (event, rest) = name_at(alloc, tokens, at)?;
    Ok((event.name, rest))
}

/// An event behind a comma.
impl Listed for Name {
    ghost begins = { spec.at_sign sign.Comma };

    ghost reads = { λ _. spec.next_event_at };

    fn is_here(tokens: &Tokens, at: u32) -> bool {
        at_sign(tokens, Sign::Comma, at)
    }

    #[tactic(auto, unfolding(crate::specs::steps::Descending::next_event_at))]
    fn take(alloc: Global, tokens: &Tokens, at: u32) -> Result<(Name, u32), ParseFault> {
        let (_, rest) = sign_at(tokens, Sign::Comma, at)?;
        event_name_at(alloc, tokens, rest)
    }
}

#[tactic(auto, unfolding(crate::specs::steps::Descending::some_events_at))]
fn some_events_at(alloc: Global, tokens: &Tokens, at: u32) -> Result<(Names, u32), ParseFault>
    requires { length tokens.now < 2 ^ 32 }
    ensures exact { Finds tokens.now result (spec.some_events_at (spec.room tokens.now) (drop at tokens.now)) }
    ensures placed { IfErr result (IsPlaced tokens.now) }
{
    let (first, rest) = event_name_at(alloc, tokens, at)?;
    let (events, rest) = more::<Name>(alloc, tokens, first, rest)?;
    let (_, rest) = sign_at(tokens, Sign::RightBracket, rest)?;
    Ok((events, rest))
}

fn in_brackets_at(alloc: Global, tokens: &Tokens, at: u32) -> Result<(Names, u32), ParseFault>
    requires { length tokens.now < 2 ^ 32 }
    ensures exact { Finds tokens.now result (spec.in_brackets_at (spec.room tokens.now) (drop at tokens.now)) }
    ensures placed { IfErr result (IsPlaced tokens.now) }
{
    if at_sign(tokens, Sign::RightBracket, at) {
        Ok((Names::new(alloc), next(tokens, at)))
    } else {
        some_events_at(alloc, tokens, at)
    }
}

/// The sequence of events here.
#[tactic(auto, unfolding(crate::specs::steps::Descending::sequence_at))]
fn sequence_at(alloc: Global, tokens: &Tokens, at: u32) -> Result<(Names, u32), ParseFault>
    requires { length tokens.now < 2 ^ 32 }
    ensures exact { Finds tokens.now result (spec.sequence_at (spec.room tokens.now) (drop at tokens.now)) }
    ensures placed { IfErr result (IsPlaced tokens.now) }
{
    let (_, rest) = sign_at(tokens, Sign::LeftBracket, at)?;
    in_brackets_at(alloc, tokens, rest)
}

#[tactic(auto, unfolding(crate::specs::steps::Descending::take_at))]
fn take_at(alloc: Global, tokens: &Tokens, at: u32) -> Result<(Goal, u32), ParseFault>
    requires { length tokens.now < 2 ^ 32 }
    ensures exact { Finds tokens.now result (spec.take_at (drop at tokens.now)) }
    ensures placed { IfErr result (IsPlaced tokens.now) }
{
    let (event, rest) = event_name_at(alloc, tokens, at)?;
    Ok((Goal::Take(event), rest))
}

#[tactic(auto, unfolding(crate::specs::steps::Descending::false_at))]
fn false_at(alloc: Global, tokens: &Tokens, at: u32) -> Result<(Goal, u32), ParseFault>
    requires { length tokens.now < 2 ^ 32 }
    ensures exact { Finds tokens.now result (spec.false_at (drop at tokens.now)) }
    ensures placed { IfErr result (IsPlaced tokens.now) }
{
    let (_, rest) = sign_at(tokens, Sign::Falsity, at)?;
    let (event, rest) = event_name_at(alloc, tokens, rest)?;
    let (guard, rest) = number_at(tokens, rest)?;
    Ok((Goal::False(event, guard), rest))
}

/// The goal here.
#[tactic(auto, unfolding(crate::specs::steps::Descending::goal_at))]
fn goal_at(alloc: Global, tokens: &Tokens, at: u32) -> Result<(Goal, u32), ParseFault>
    requires { length tokens.now < 2 ^ 32 }
    ensures exact { Finds tokens.now result (spec.goal_at (drop at tokens.now)) }
    ensures placed { IfErr result (IsPlaced tokens.now) }
{
    if at_word(tokens, "take", at) {
        take_at(alloc, tokens, next(tokens, at))
    } else {
        false_at(alloc, tokens, at)
    }
}

/// A name and a label.
#[tactic(auto, unfolding(crate::specs::steps::Descending::target_at))]
fn target_at(alloc: Global, tokens: &Tokens, at: u32) -> Result<((Name, Name), u32), ParseFault>
    requires { length tokens.now < 2 ^ 32 }
    ensures exact { Finds tokens.now result (spec.target_at (drop at tokens.now)) }
    ensures placed { IfErr result (IsPlaced tokens.now) }
{
    let (name, rest) = event_name_at(alloc, tokens, at)?;
    let (label, rest) = label_at(alloc, tokens, rest)?;
    Ok(((name, label.name), rest))
}

#[tactic(auto, unfolding(crate::specs::steps::Descending::ask_enabled_at))]
fn ask_enabled_at(alloc: Global, tokens: &Tokens, at: u32) -> Result<(Query, u32), ParseFault>
    requires { length tokens.now < 2 ^ 32 }
    ensures exact { Finds tokens.now result (spec.ask_enabled_at (drop at tokens.now)) }
    ensures placed { IfErr result (IsPlaced tokens.now) }
{
    let (event, rest) = event_name_at(alloc, tokens, at)?;
    Ok((Query::Enabled(event), rest))
}

#[tactic(auto, unfolding(crate::specs::steps::Descending::ask_invariant_at))]
fn ask_invariant_at(alloc: Global, tokens: &Tokens, at: u32) -> Result<(Query, u32), ParseFault>
    requires { length tokens.now < 2 ^ 32 }
    ensures exact { Finds tokens.now result (spec.ask_invariant_at (drop at tokens.now)) }
    ensures placed { IfErr result (IsPlaced tokens.now) }
{
    let ((event, label), rest) = target_at(alloc, tokens, at)?;
    Ok((Query::Invariant(event, label), rest))
}

#[tactic(auto, unfolding(crate::specs::steps::Descending::ask_sequence_at))]
fn ask_sequence_at(alloc: Global, tokens: &Tokens, at: u32) -> Result<(Query, u32), ParseFault>
    requires { length tokens.now < 2 ^ 32 }
    ensures exact { Finds tokens.now result (spec.ask_sequence_at (spec.room tokens.now) (drop at tokens.now)) }
    ensures placed { IfErr result (IsPlaced tokens.now) }
{
    let (events, rest) = sequence_at(alloc, tokens, at)?;
    Ok((Query::Sequence(events), rest))
}

#[tactic(auto, unfolding(crate::specs::steps::Descending::ask_wd_at))]
fn ask_wd_at(alloc: Global, tokens: &Tokens, at: u32) -> Result<(Query, u32), ParseFault>
    requires { length tokens.now < 2 ^ 32 }
    ensures exact { Finds tokens.now result (spec.ask_wd_at (drop at tokens.now)) }
    ensures placed { IfErr result (IsPlaced tokens.now) }
{
    let ((unit, label), rest) = target_at(alloc, tokens, at)?;
    Ok((Query::WellDefined(unit, label), rest))
}

#[tactic(auto, unfolding(crate::specs::steps::Descending::ask_theorem_at))]
fn ask_theorem_at(alloc: Global, tokens: &Tokens, at: u32) -> Result<(Query, u32), ParseFault>
    requires { length tokens.now < 2 ^ 32 }
    ensures exact { Finds tokens.now result (spec.ask_theorem_at (drop at tokens.now)) }
    ensures placed { IfErr result (IsPlaced tokens.now) }
{
    let ((unit, label), rest) = target_at(alloc, tokens, at)?;
    Ok((Query::Theorem(unit, label), rest))
}

#[tactic(auto, unfolding(crate::specs::steps::Descending::ask_goal_at))]
fn ask_goal_at(alloc: Global, tokens: &Tokens, at: u32) -> Result<(Query, u32), ParseFault>
    requires { length tokens.now < 2 ^ 32 }
    ensures exact { Finds tokens.now result (spec.ask_goal_at (spec.room tokens.now) (drop at tokens.now)) }
    ensures placed { IfErr result (IsPlaced tokens.now) }
{
    let (_, rest) = word_at(tokens, "goal", at)?;
    let (events, rest) = sequence_at(alloc, tokens, rest)?;
    let (goal, rest) = goal_at(alloc, tokens, rest)?;
    Ok((Query::Goal(events, goal), rest))
}

#[tactic(auto, unfolding(crate::specs::steps::Descending::name_query_at))]
fn name_query_at(alloc: Global, tokens: &Tokens, at: u32) -> Result<(Query, u32), ParseFault>
    requires { length tokens.now < 2 ^ 32 }
    ensures exact { Finds tokens.now result (spec.name_query_at (spec.room tokens.now) (drop at tokens.now)) }
    ensures placed { IfErr result (IsPlaced tokens.now) }
{
    if at_word(tokens, "enabled", at) {
        ask_enabled_at(alloc, tokens, next(tokens, at))
    } else if at_word(tokens, "invariant", at) {
        ask_invariant_at(alloc, tokens, next(tokens, at))
    } else if at_word(tokens, "wd", at) {
        ask_wd_at(alloc, tokens, next(tokens, at))
    } else {
        ask_goal_at(alloc, tokens, at)
    }
}

/// A query that begins with a word.
#[tactic(auto, unfolding(crate::specs::steps::Descending::word_query_at))]
fn word_query_at(alloc: Global, tokens: &Tokens, at: u32) -> Result<(Query, u32), ParseFault>
    requires { length tokens.now < 2 ^ 32 }
    ensures exact { Finds tokens.now result (spec.word_query_at (spec.room tokens.now) (drop at tokens.now)) }
    ensures placed { IfErr result (IsPlaced tokens.now) }
{
    if at_word(tokens, "deadlock", at) {
        Ok((Query::Deadlock, next(tokens, at)))
    } else if at_word(tokens, "sequence", at) {
        ask_sequence_at(alloc, tokens, next(tokens, at))
    } else {
        name_query_at(alloc, tokens, at)
    }
}

/// The query here.
impl Listed for Query {
    ghost begins = { spec.opens_query };

    ghost reads = { λ ts. spec.query_at (spec.room ts) };

    #[tactic(auto, unfolding(crate::specs::steps::Descending::opens_query))]
    fn is_here(tokens: &Tokens, at: u32) -> bool {
        at_name(tokens, at)
            || (at_sign(tokens, Sign::Axioms, at) || at_sign(tokens, Sign::Theorem, at))
    }

    #[tactic(auto, unfolding(crate::specs::steps::Descending::query_at))]
    fn take(alloc: Global, tokens: &Tokens, at: u32) -> Result<(Query, u32), ParseFault> {
        if at_sign(tokens, Sign::Axioms, at) {
            Ok((Query::Axioms, next(tokens, at)))
        } else if at_sign(tokens, Sign::Theorem, at) {
            ask_theorem_at(alloc, tokens, next(tokens, at))
        } else {
            word_query_at(alloc, tokens, at)
        }
    }
}

/// The block of queries here.
#[tactic(auto, unfolding(crate::specs::steps::Descending::queries_at))]
pub(crate) fn queries_at(
    alloc: Global,
    tokens: &Tokens,
    at: u32,
) -> Result<(Queries, u32), ParseFault>
    requires { length tokens.now < 2 ^ 32 }
    ensures exact { Finds tokens.now result (spec.queries_at (spec.room tokens.now) (drop at tokens.now)) }
    ensures placed { IfErr result (IsPlaced tokens.now) }
{
    let (_, rest) = word_at(tokens, "queries", at)?;
    let (queries, rest) = many::<Query>(alloc, tokens, rest)?;
    let (_, rest) = sign_at(tokens, Sign::End, rest)?;
    Ok((queries, rest))
}
