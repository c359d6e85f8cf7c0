//! The rows of `<=`, `+` and `-`.
ghost use Rattle.std.specs.Prelude.{◌≡◌, ℤ, ◌+ℤ◌, ◌-ℤ◌, int_le, true, false, None};
ghost use Rattle.eb_value.specs.Typing.{in_range};
ghost use Rattle.eb_operations.specs.Truths.{truth_of};
ghost use Rattle.int_dom.specs.Intervals.{Has};
ghost use Rattle.occ_domains.specs.Domains.{has, has_truth, slot, is_normal};
ghost use Rattle.rules_integers.specs.Sums as spec;
ghost use Rattle.rules_integers.specs.steps.Ranges.{saturated};

use crate::ends::{by_span, clipped, within};
use eb_operations::{difference, sum};
use eb_term::Side;
use eb_value::LIMIT;
use int_dom::Interval;
use occ_domains::{Domain, Truths};

/// The truths of `a <= b` where the sides are integers of these intervals.
pub fn up_at_most(a: Interval, b: Interval) -> Truths
    ensures row { result ≡ spec.up_at_most a b }
    ensures sound { (m n : ℤ) → Has a m → Has b n → has_truth result (truth_of (int_le m n)) ≡ true }
{
    Truths {
        can_be_true: a.lo <= b.hi,
        can_be_false: b.lo < a.hi,
        can_be_undefined: false,
    }
}

/// The integers of a side of `a <= b` that has this truth, where the other side is an integer of the interval.
pub fn down_at_most(side: Side, truth: bool, other: Interval) -> Interval
    ensures row { result ≡ spec.down_at_most side truth other }
    ensures sound { (m n : ℤ) → in_range m ≡ true → Has other n → spec.at_most side m n ≡ truth → Has result m }
{
    bounded(side, truth, other)
}

fn bounded(side: Side, truth: bool, other: Interval) -> Interval
    ensures { result ≡ spec.down_at_most side truth other }
{
    match (side, truth) {
        (Side::First, true) => clipped(-LIMIT, other.hi),
        (Side::Second, true) => clipped(other.lo, LIMIT),
        (Side::First, false) => clipped(other.lo.saturating_add(1), LIMIT),
        (Side::Second, false) => clipped(-LIMIT, other.hi.saturating_sub(1)),
    }
}

/// What `a + b` may be, where the sides are integers of these intervals, and each is defined or either may be Undefined.
pub fn up_sum(defined: bool, a: Interval, b: Interval) -> Domain
    ensures row { result ≡ spec.up_sum defined a b }
    ensures sound { (m n : ℤ) → Has a m → Has b n → has result (slot (spec.sum m n)) ≡ true }
    ensures undefined { defined ≡ false → has result (slot None) ≡ true }
    ensures normal { is_normal result ≡ true }
{
    sums(defined, a, b)
}

fn sums(defined: bool, a: Interval, b: Interval) -> Domain
    ensures { result ≡ spec.up_sum defined a b }
{
    by_span(defined, sum(a.lo, b.lo), span_of_sums(a, b), a, b)
}

fn span_of_sums(a: Interval, b: Interval) -> Interval
    ensures { result ≡ saturated (record { lo = a.lo +ℤ b.lo; hi = a.hi +ℤ b.hi }) }
{
    Interval {
        lo: a.lo.saturating_add(b.lo),
        hi: a.hi.saturating_add(b.hi),
    }
}

/// The integers of a side of `a + b`, where the sum and the other side are integers of these intervals.
pub fn down_sum(whole: Interval, other: Interval) -> Interval
    ensures row { result ≡ spec.down_sum whole other }
    ensures sound { (m n : ℤ) → in_range m ≡ true → Has other n → Has whole (m +ℤ n) → Has result m }
{
    summands(whole, other)
}

fn summands(whole: Interval, other: Interval) -> Interval
    ensures { result ≡ spec.down_sum whole other }
{
    within(span_of_differences(whole, other))
}

/// What `a - b` may be, where the sides are integers of these intervals, and each is defined or either may be Undefined.
pub fn up_difference(defined: bool, a: Interval, b: Interval) -> Domain
    ensures row { result ≡ spec.up_difference defined a b }
    ensures sound { (m n : ℤ) → Has a m → Has b n → has result (slot (spec.difference m n)) ≡ true }
    ensures undefined { defined ≡ false → has result (slot None) ≡ true }
    ensures normal { is_normal result ≡ true }
{
    differences(defined, a, b)
}

fn differences(defined: bool, a: Interval, b: Interval) -> Domain
    ensures { result ≡ spec.up_difference defined a b }
{
    by_span(
        defined,
        difference(a.lo, b.lo),
        span_of_differences(a, b),
        a,
        b,
    )
}

fn span_of_differences(a: Interval, b: Interval) -> Interval
    ensures { result ≡ saturated (record { lo = a.lo -ℤ b.hi; hi = a.hi -ℤ b.lo }) }
{
    Interval {
        lo: a.lo.saturating_sub(b.hi),
        hi: a.hi.saturating_sub(b.lo),
    }
}

/// The integers of a side of `a - b`, where the difference and the other side are integers of these intervals.
pub fn down_difference(side: Side, whole: Interval, other: Interval) -> Interval
    ensures row { result ≡ spec.down_difference side whole other }
    ensures sound { (m n : ℤ) → in_range m ≡ true → Has other n → Has whole (spec.difference_of side m n) → Has result m }
{
    terms(side, whole, other)
}

fn terms(side: Side, whole: Interval, other: Interval) -> Interval
    ensures { result ≡ spec.down_difference side whole other }
{
    match side {
        Side::First => within(span_of_sums(whole, other)),
        Side::Second => within(span_of_differences(other, whole)),
    }
}
