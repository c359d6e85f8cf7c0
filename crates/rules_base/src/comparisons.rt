//! The rows of `=` and `<=`.
ghost use Rattle.std.specs.Prelude.{◌≡◌, IfOk};
ghost use Rattle.rules_base.specs.Comparisons as spec;

use crate::definedness::{is_false_alone, is_true_alone};
use eb_term::Side;
use eb_value::{Value, compare};
use occ_domains::{Body, Truths, without};
use rules_integers::{down_at_most, up_at_most};
use std::alloc::{AllocError, Global};

const UNDEFINED_ALONE: Truths = Truths {
    can_be_true: false,
    can_be_false: false,
    can_be_undefined: true,
};

/// Whether both are single, and the same.
fn are_one(a: &Option<Value>, b: &Option<Value>) -> bool
    ensures { result ≡ spec.are_one a.now b.now }
{
    match (a, b) {
        (Some(v), Some(w)) => compare(v, w).is_eq(),
        _ => false,
    }
}

/// The truths of `E = F`, where the sides have these values, and either may be Undefined or neither.
pub(crate) fn up_equal(
    alloc: Global,
    undefined: bool,
    a: &Body,
    b: &Body,
) -> Result<Truths, AllocError>
    ensures { IfOk result (λ t. t ≡ spec.up_equal undefined a.now b.now) }
{
    if a.is_empty() || b.is_empty() {
        return Ok(UNDEFINED_ALONE);
    }
    let common = a.meet(alloc, b)?;
    let first = a.single(alloc)?;
    let second = b.single(alloc)?;
    Ok(Truths {
        can_be_true: !common.is_empty(),
        can_be_false: !are_one(&first, &second),
        can_be_undefined: undefined,
    })
}

/// The values of a side of `E = F`, where the whole has these truths and the other side these values.
pub(crate) fn down_equal(
    alloc: Global,
    whole: Truths,
    part: &Body,
    other: &Body,
) -> Result<Body, AllocError>
    ensures { IfOk result (λ b. b ≡ spec.down_equal whole part.now other.now) }
{
    if is_true_alone(whole) {
        part.meet(alloc, other)
    } else if is_false_alone(whole) {
        unequal(alloc, part, other)
    } else {
        part.copied(alloc)
    }
}

/// The values but for the one value of another body.
fn unequal(alloc: Global, part: &Body, other: &Body) -> Result<Body, AllocError>
    ensures { IfOk result (λ b. b ≡ spec.unequal part.now other.now) }
{
    let single = other.single(alloc)?;
    match &single {
        Some(value) => without(alloc, part, value),
        None => part.copied(alloc),
    }
}

/// The truths of `a <= b`, where the sides have these values, and either may be Undefined or neither.
pub(crate) fn up_order(undefined: bool, a: &Body, b: &Body) -> Truths
    ensures { result ≡ spec.up_order undefined a.now b.now }
{
    match (a, b) {
        (Body::Integers(c), Body::Integers(d)) => with_undefined(undefined, up_at_most(*c, *d)),
        _ => UNDEFINED_ALONE,
    }
}

fn with_undefined(undefined: bool, truths: Truths) -> Truths
    ensures { result ≡ spec.with_undefined undefined truths }
{
    Truths {
        can_be_true: truths.can_be_true,
        can_be_false: truths.can_be_false,
        can_be_undefined: undefined,
    }
}

/// The values of a side of `a <= b`, where the whole has these truths and the other side these values.
pub(crate) fn down_order(
    alloc: Global,
    side: Side,
    whole: Truths,
    part: &Body,
    other: &Body,
) -> Result<Body, AllocError>
    ensures { IfOk result (λ b. b ≡ spec.down_order side whole part.now other.now) }
{
    if is_true_alone(whole) {
        bounded(alloc, side, true, part, other)
    } else if is_false_alone(whole) {
        bounded(alloc, side, false, part, other)
    } else {
        part.copied(alloc)
    }
}

fn bounded(
    alloc: Global,
    side: Side,
    truth: bool,
    part: &Body,
    other: &Body,
) -> Result<Body, AllocError>
    ensures { IfOk result (λ b. b ≡ spec.bounded side truth part.now other.now) }
{
    match (part, other) {
        (Body::Integers(c), Body::Integers(d)) => {
            Ok(Body::common(*c, down_at_most(side, truth, *d)))
        },
        _ => part.copied(alloc),
    }
}
