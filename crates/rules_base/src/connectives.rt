//! The rows of connectives.
ghost use Rattle.std.specs.Prelude.{◌≡◌};
ghost use Rattle.occ_domains.specs.Domains.{has_truth};
ghost use Rattle.rules_base.specs.Connectives as spec;

use crate::connective::Connective;
use eb_operations::Truth3;
use eb_term::Side;
use occ_domains::Truths;

/// Whether it is one of the truths.
fn has(truths: Truths, truth: Truth3) -> bool
    ensures { result ≡ has_truth truths truth }
{
    match truth {
        Truth3::True => truths.can_be_true,
        Truth3::False => truths.can_be_false,
        Truth3::Undefined => truths.can_be_undefined,
    }
}

fn is_same(p: Truth3, q: Truth3) -> bool
    ensures { result ≡ spec.is_same p q }
{
    match (p, q) {
        (Truth3::True, Truth3::True)
        | (Truth3::False, Truth3::False)
        | (Truth3::Undefined, Truth3::Undefined) => true,
        _ => false,
    }
}

/// Whether the connective has this truth where the left side has that and the right side one of these.
fn reaches_from(connective: Connective, left: Truth3, right: Truths, truth: Truth3) -> bool
    ensures { result ≡ spec.some right (λ y. spec.is_same (spec.truth_by connective left y) truth) }
{
    (right.can_be_true && is_same(connective.truth(left, Truth3::True), truth))
        || (right.can_be_false && is_same(connective.truth(left, Truth3::False), truth))
        || (right.can_be_undefined && is_same(connective.truth(left, Truth3::Undefined), truth))
}

/// Whether the connective has this truth where each side has one of its truths.
fn reaches(connective: Connective, left: Truths, right: Truths, truth: Truth3) -> bool
    ensures { result ≡ spec.some left (λ x. spec.some right (λ y. spec.is_same (spec.truth_by connective x y) truth)) }
{
    (left.can_be_true && reaches_from(connective, Truth3::True, right, truth))
        || (left.can_be_false && reaches_from(connective, Truth3::False, right, truth))
        || (left.can_be_undefined && reaches_from(connective, Truth3::Undefined, right, truth))
}

/// The truths that a connective may have where its sides may have these.
pub(crate) fn up_connective(connective: Connective, left: Truths, right: Truths) -> Truths
    ensures { result ≡ spec.up connective left right }
{
    Truths {
        can_be_true: reaches(connective, left, right, Truth3::True),
        can_be_false: reaches(connective, left, right, Truth3::False),
        can_be_undefined: reaches(connective, left, right, Truth3::Undefined),
    }
}

/// The truth of a connective by that of a side and that of the other.
fn of_side(connective: Connective, side: Side, part: Truth3, other: Truth3) -> Truth3
    ensures { result ≡ spec.of_side connective side part other }
{
    match side {
        Side::First => connective.truth(part, other),
        Side::Second => connective.truth(other, part),
    }
}

/// Whether the side may have this truth, since with one of the other side's the whole has one of its own.
fn fits(connective: Connective, side: Side, whole: Truths, part: Truth3, other: Truths) -> bool
    ensures { result ≡ spec.some other (λ y. has_truth whole (spec.of_side connective side part y)) }
{
    (other.can_be_true && has(whole, of_side(connective, side, part, Truth3::True)))
        || (other.can_be_false && has(whole, of_side(connective, side, part, Truth3::False)))
        || (other.can_be_undefined
            && has(whole, of_side(connective, side, part, Truth3::Undefined)))
}

/// The truths that a side of a connective may have, where the whole, the side and the other side may have these.
pub(crate) fn down_connective(
    connective: Connective,
    side: Side,
    whole: Truths,
    part: Truths,
    other: Truths,
) -> Truths
    ensures { result ≡ spec.down connective side whole part other }
{
    Truths {
        can_be_true: part.can_be_true && fits(connective, side, whole, Truth3::True, other),
        can_be_false: part.can_be_false && fits(connective, side, whole, Truth3::False, other),
        can_be_undefined: part.can_be_undefined
            && fits(connective, side, whole, Truth3::Undefined, other),
    }
}

/// The truths that `not P` may have where P may have these.
pub(crate) fn up_negation(part: Truths) -> Truths
    ensures { result ≡ spec.up_negation part }
{
    Truths {
        can_be_true: part.can_be_false,
        can_be_false: part.can_be_true,
        can_be_undefined: part.can_be_undefined,
    }
}

/// The truths that P may have where `not P` and P may have these.
pub(crate) fn down_negation(whole: Truths, part: Truths) -> Truths
    ensures { result ≡ spec.down_negation whole part }
{
    Truths {
        can_be_true: part.can_be_true && whole.can_be_false,
        can_be_false: part.can_be_false && whole.can_be_true,
        can_be_undefined: part.can_be_undefined && whole.can_be_undefined,
    }
}
