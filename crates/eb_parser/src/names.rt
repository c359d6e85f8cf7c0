ghost use Rattle.std.specs.Prelude.{length, true};
ghost use Rattle.eb_parser.specs.steps.Climbing as spec;
ghost use Rattle.eb_parser.specs.steps.Climbing.{Gives};

use super::fault::{Fault, Stop};
use super::front::{after_first, ends_pattern, mark_at, name_at, separator, state_after};
use eb_lexer::Token;
use eb_syntax::{Binder, Bound, Identifiers, Pattern};
use std::alloc::Global;

/// Names parted by commas, and the tokens behind the dot that ends them.
pub(crate) fn names(alloc: Global, tokens: &[Token]) -> Result<(Identifiers, &[Token]), Stop>
    ensures { Gives (λ x. (x.0, x.1.now)) result (spec.names (length tokens.now) tokens.now) }
{
    let mut names = Identifiers::new(alloc);
    let mut rest = tokens;
    for _ in 0..tokens.len() {
        let (name, after) = name_at(alloc, rest)?;
        names.push(name)?;
        let (goes_on, next) = separator(after)?;
        if !goes_on {
            return Ok((names, next));
        }
        rest = next;
    }
    Err(Stop::Fault(Fault::Syntax))
}

/// A pattern, and the tokens behind the dot that ends it.
fn pattern(alloc: Global, tokens: &[Token]) -> Result<(Pattern, &[Token]), Stop>
    ensures { Gives (λ x. (x.0, x.1.now)) result (spec.pattern (length tokens.now) true 0 tokens.now) }
{
    let mut pattern = Pattern::new(alloc);
    let mut rest = tokens;
    let mut due = true;
    let mut depth = 0;
    for _ in 0..tokens.len() {
        if ends_pattern(due, depth, rest) {
            return Ok((pattern, after_first(rest)));
        }
        let mark = mark_at(alloc, rest)?;
        (due, depth) = state_after(due, depth, &mark)?;
        pattern.push(mark)?;
        rest = after_first(rest);
    }
    Err(Stop::Fault(Fault::Syntax))
}

/// What the binder binds, and the tokens behind the dot that ends it.
#[tactic(auto, unfolding(crate::specs::steps::Climbing::binding))]
pub(crate) fn binding(
    alloc: Global,
    binder: Binder,
    tokens: &[Token],
) -> Result<(Bound, &[Token]), Stop>
    ensures { Gives (λ x. (x.0, x.1.now)) result (spec.binding binder tokens.now) }
{
    match binder {
        Binder::Lambda => {
            let (pattern, rest) = pattern(alloc, tokens)?;
            Ok((Bound::Pattern(pattern), rest))
        }
        Binder::Union | Binder::Intersection => {
            let (names, rest) = names(alloc, tokens)?;
            Ok((Bound::Identifiers(names), rest))
        }
    }
}
