//! Terms of binders over their ranges. The only error of each function is want of memory.
ghost use Rattle.std.specs.Prelude.{◌≡◌, OnOk, IfOk};
ghost use Rattle.narrow_terms.specs.Building as built;
ghost use Rattle.eb_lowering.specs.Lowering as spec;
ghost use Rattle.eb_lowering.specs.steps.Binding as step;

use crate::anchors::Range;
use crate::around::{Around, Leaf};
use eb_resolved::Resolved;
use eb_syntax::{Binder as Gatherer, Bound, Call, Quantifier};
use eb_term::{Binary, Binder, SharedType, Term, Unary};
use narrow_terms::extension;
use sqlite_items::Items;
use std::alloc::{AllocError, Global};

/// The body of a binder: a predicate; or the sets that it collects where a predicate is True: that of an expression, that of a
/// pattern, whose first identifier has a number, paired with an expression, or the expression itself.
#[derive(Clone, Copy)]
pub(crate) enum Body<'a> {
    Predicate(&'a Resolved),
    Members(&'a Resolved, &'a Resolved),
    Pairs(&'a Bound, u32, &'a Resolved, &'a Resolved),
    Sets(&'a Resolved, &'a Resolved),
}

/// What stands at a range: a set, or the type of all its values.
#[derive(Drop)]
pub(crate) enum Made {
    Over(Term),
    All(SharedType),
}

/// What binders over ranges stand at, from the outermost on.
pub(crate) type MadeRanges = Items<Made>;

/// The binder of a quantifier.
pub(crate) fn quantifier_binder(quantifier: Quantifier) -> Binder
    ensures { result ≡ spec.quantifier_binder quantifier }
{
    match quantifier {
        Quantifier::ForAll => Binder::ForAll,
        Quantifier::Exists => Binder::Exists,
    }
}

/// What `%`, `UNION` or `INTER` collects.
pub(crate) fn gathered_body<'a>(
    gatherer: Gatherer,
    bound: &'a Bound,
    first: u32,
    condition: &'a Resolved,
    value: &'a Resolved,
) -> Body<'a>
    ensures { step.IsBody gatherer bound.now first condition.now value.now result }
{
    match gatherer {
        Gatherer::Lambda => Body::Pairs(bound, first, condition, value),
        Gatherer::Union => Body::Sets(condition, value),
        Gatherer::Intersection => Body::Members(condition, value),
    }
}

/// What becomes of what `%`, `UNION` or `INTER` collects.
pub(crate) fn gathered(alloc: Global, gatherer: Gatherer, set: Term) -> Result<Term, AllocError>
    ensures { IfOk result (λ t. t ≡ step.gathered gatherer set) }
{
    match gatherer {
        Gatherer::Lambda | Gatherer::Union => Ok(set),
        Gatherer::Intersection => {
            Term::unary(alloc, Unary::Call(Call::GeneralizedIntersection), set)
        }
    }
}

/// The set where the predicate is True, the empty set where it is False.
pub(crate) fn guarded(alloc: Global, predicate: Term, set: Term) -> Result<Term, AllocError>
    ensures { IfOk result (λ t. t ≡ step.guarded predicate set) }
{
    Term::binary(alloc, Binary::If, predicate, set)
}

/// The set that has this value alone where the predicate is True.
pub(crate) fn members(alloc: Global, predicate: Term, value: Term) -> Result<Term, AllocError>
    ensures { IfOk result (λ t. t ≡ step.guarded predicate (built.extension value)) }
{
    let set = extension(alloc, value)?;
    guarded(alloc, predicate, set)
}

/// Inside one more binder, over this range.
pub(crate) fn enter(alloc: Global, range: &Range<'_>, around: &mut Around) -> Result<(), AllocError>
    ensures { OnOk result (around.new ≡ spec.inside around.old (step.leaves_in range.now)) }
{
    match range {
        Range::Over(leaves, _) => around.enter(alloc, leaves.as_slice()),
        Range::All(number) => around.enter(alloc, &[Leaf::new(alloc, *number)]),
    }
}

/// The body under one binder.
fn under(alloc: Global, binder: Binder, range: Made, body: Term) -> Result<Term, AllocError>
    ensures { IfOk result (λ t. t ≡ step.under binder range body) }
{
    match range {
        Made::Over(set) => Term::over(alloc, binder, set, body),
        Made::All(ty) => Term::all(alloc, binder, &ty, body),
    }
}

/// The body under a binder for each range, the first outermost.
pub(crate) fn under_all(
    alloc: Global,
    binder: Binder,
    ranges: MadeRanges,
    body: Term,
) -> Result<Term, AllocError>
    ensures { IfOk result (λ t. t ≡ step.under_all binder ranges body) }
{
    let mut ranges = ranges;
    let mut term = body;
    while let Some(range) = ranges.pop() {
        term = under(alloc, binder, range, term)?;
    }
    Ok(term)
}
