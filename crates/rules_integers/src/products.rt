//! The rows of `*`, `/` and `mod`.
ghost use Rattle.std.specs.Prelude.{◌≡◌, ℤ, ◌-ℤ◌, ◌*ℤ◌, ◌<ℤ◌, neg_ℤ, int_div, int_le, int_lt, not, ◌&&◌, pos, true, false, Some, None};
ghost use Rattle.std.specs.Int.{int_min, int_div_euclid};
ghost use Rattle.eb_value.specs.Values.{int};
ghost use Rattle.eb_value.specs.Typing.{in_range};
ghost use Rattle.eb_operations.specs.Arithmetic as arithmetic;
ghost use Rattle.int_dom.specs.Intervals.{Has};
ghost use Rattle.occ_domains.specs.Domains.{has, slot, is_normal};
ghost use Rattle.occ_domains.specs.Bodies.{integers};
ghost use Rattle.rules_integers.specs.Ends as bounds;
ghost use Rattle.rules_integers.specs.Products as spec;
ghost use Rattle.rules_integers.specs.steps.Ranges.{InRange, IsWithin, saturated};

use crate::ends::{by_ends, by_span, clipped, within};
use eb_operations::{product, quotient, remainder};
use eb_term::Side;
use eb_value::LIMIT;
use int_dom::Interval;
use occ_domains::{Body, Domain};

/// From the least to the greatest of four integers.
fn over(k: i64, l: i64, m: i64, n: i64) -> Interval
    ensures { result ≡ record { lo = spec.least_of k l m n; hi = spec.greatest_of k l m n } }
{
    Interval {
        lo: least_of(k, l, m, n),
        hi: greatest_of(k, l, m, n),
    }
}

fn least_of(k: i64, l: i64, m: i64, n: i64) -> i64
    ensures { result ≡ spec.least_of k l m n }
{
    k.min(l).min(m.min(n))
}

fn greatest_of(k: i64, l: i64, m: i64, n: i64) -> i64
    ensures { result ≡ spec.greatest_of k l m n }
{
    k.max(l).max(m.max(n))
}

/// What `a * b` may be, where the sides are integers of these intervals, and each is defined or either may be Undefined.
pub fn up_product(defined: bool, a: Interval, b: Interval) -> Domain
    ensures row { result ≡ spec.up_product defined a b }
    ensures sound { (m n : ℤ) → Has a m → Has b n → has result (slot (spec.product m n)) ≡ true }
    ensures undefined { defined ≡ false → has result (slot None) ≡ true }
    ensures normal { is_normal result ≡ true }
{
    products(defined, a, b)
}

fn products(defined: bool, a: Interval, b: Interval) -> Domain
    ensures { result ≡ spec.up_product defined a b }
{
    by_span(defined, product(a.lo, b.lo), over_products(a, b), a, b)
}

/// From the least to the greatest product of ends, as far as the type goes.
fn over_products(a: Interval, b: Interval) -> Interval
    ensures { result ≡ saturated (spec.over_ends (λ m n. m *ℤ n) a b) }
{
    over(
        a.lo.saturating_mul(b.lo),
        a.lo.saturating_mul(b.hi),
        a.hi.saturating_mul(b.lo),
        a.hi.saturating_mul(b.hi),
    )
}

/// The integers of a side of `a * b`, where the product and the other side are integers of these intervals.
pub fn down_product(whole: Interval, other: Interval) -> Interval
    ensures row { result ≡ spec.down_product whole other }
    ensures sound { (m n : ℤ) → in_range m ≡ true → in_range n ≡ true → in_range (m *ℤ n) ≡ true → Has other n → Has whole (m *ℤ n) → Has result m }
{
    factors(whole, other)
}

#[tactic(auto, using(crate::proofs::RangeLaws::within_is))]
fn factors(whole: Interval, other: Interval) -> Interval
    ensures { result ≡ spec.down_product whole other }
{
    factors_of(within(whole), within(other))
}

fn factors_of(whole: Interval, other: Interval) -> Interval
    requires whole { IsWithin whole }
    requires other { IsWithin other }
    ensures { result ≡ spec.factors_of whole other }
{
    if other.is_single() && other.lo != 0 {
        factors_by(other.lo, whole)
    } else {
        clipped(-LIMIT, LIMIT)
    }
}

/// What `a / b` may be, where the sides are integers of these intervals, and each is defined or either may be Undefined.
pub fn up_quotient(defined: bool, a: Interval, b: Interval) -> Domain
    ensures row { result ≡ spec.up_quotient defined a b }
    ensures sound { (m n : ℤ) → in_range m ≡ true → in_range n ≡ true → Has a m → Has b n → has result (slot (arithmetic.quotient m n)) ≡ true }
    ensures undefined { defined ≡ false → has result (slot None) ≡ true }
    ensures normal { is_normal result ≡ true }
{
    quotients(defined, a, b)
}

/// The divisors of `a / b` that has a value, where b is an integer of the interval.
pub fn down_divisor(b: Interval) -> Interval
    ensures row { result ≡ spec.down_divisor b }
    ensures sound { (n : ℤ) → in_range n ≡ true → Has b n → (n ≡ pos 0 → ⊥) → Has result n }
{
    divisors(within(b))
}

fn divisors(d: Interval) -> Interval
    ensures { result ≡ spec.divisors d }
{
    Interval {
        lo: if d.lo == 0 { 1 } else { d.lo },
        hi: if d.hi == 0 { -1 } else { d.hi },
    }
}

/// What `a mod b` may be, where the sides are integers of these intervals, and each is defined or either may be Undefined.
pub fn up_remainder(defined: bool, a: Interval, b: Interval) -> Domain
    ensures row { result ≡ spec.up_remainder defined a b }
    ensures sound { (m n : ℤ) → in_range m ≡ true → Has a m → Has b n → has result (slot (arithmetic.remainder m n)) ≡ true }
    ensures undefined { defined ≡ false → has result (slot None) ≡ true }
    ensures normal { is_normal result ≡ true }
{
    remainders(defined, a, b)
}

fn remainders(defined: bool, a: Interval, b: Interval) -> Domain
    ensures { result ≡ spec.up_remainder defined a b }
{
    let body = remainders_to(a.hi, b.hi);
    by_ends(defined, remainder(a.lo, b.lo), body, may_lack(a, b), a, b)
}

/// The remainders of what is at most a number by what is at most another.
fn remainders_to(m: i64, n: i64) -> Body
    ensures { result ≡ integers (bounds.clipped (pos 0) (int_min m (n -ℤ pos 1))) }
{
    let ends = clipped(0, m.min(n.saturating_sub(1)));
    Body::integers(ends.lo, ends.hi)
}

/// Whether there may be no remainder of an integer of the one interval by one of the other.
fn may_lack(a: Interval, b: Interval) -> bool
    ensures { result ≡ not (int_le (pos 0) a.lo && int_lt (pos 0) b.lo) }
{
    !(0 <= a.lo && 0 < b.lo)
}

/// The integers of a side of `a mod b` that has a value, where the remainder is an integer of the interval.
pub fn down_remainder(side: Side, whole: Interval) -> Interval
    ensures row { result ≡ spec.down_remainder side whole }
    ensures sound { (m n r : ℤ) → in_range m ≡ true → spec.remainder_of side m n ≡ Some (int r) → Has whole r → Has result m }
{
    from_remainder(side, whole)
}

fn from_remainder(side: Side, whole: Interval) -> Interval
    ensures { result ≡ spec.down_remainder side whole }
{
    match side {
        Side::First => clipped(whole.lo.max(0), LIMIT),
        Side::Second => clipped(whole.lo.saturating_add(1).max(1), LIMIT),
    }
}

/// The integers whose product with one that isn't 0 is in an interval.
fn factors_by(n: i64, d: Interval) -> Interval
    requires other { n ≡ pos 0 → ⊥ }
    requires number { InRange n }
    requires interval { IsWithin d }
    ensures { result ≡ spec.factors n d }
{
    if 0 < n {
        Interval {
            lo: negated(rounded_down(negated(d.lo), n)),
            hi: rounded_down(d.hi, n),
        }
    } else {
        Interval {
            lo: negated(rounded_down(d.hi, negated(n))),
            hi: rounded_down(negated(d.lo), negated(n)),
        }
    }
}

fn negated(n: i64) -> i64
    requires { InRange n }
    ensures value { result ≡ neg_ℤ n }
    ensures within { InRange result }
{
    -n
}

/// The quotient by a number above 0, rounded down.
fn rounded_down(m: i64, n: i64) -> i64
    requires above { pos 0 <ℤ n }
    requires within { InRange m }
    ensures value { result ≡ int_div_euclid m n }
    ensures within { InRange result }
{
    m.div_euclid(n)
}

fn quotients(defined: bool, a: Interval, b: Interval) -> Domain
    ensures { result ≡ spec.up_quotient defined a b }
{
    let divisor = within(b);
    let body = quotients_by(within(a), divisors(divisor));
    by_ends(defined, quotient(a.lo, b.lo), body, has_zero(divisor), a, b)
}

fn has_zero(d: Interval) -> bool
    ensures { result ≡ spec.has_zero d }
{
    d.lo <= 0 && 0 <= d.hi
}

/// The greatest absolute end.
fn reach(d: Interval) -> i64
    requires { IsWithin d }
    ensures value { result ≡ spec.reach d }
    ensures within { InRange result }
{
    d.lo.abs().max(d.hi.abs())
}

fn quotients_by(a: Interval, b: Interval) -> Body
    requires { IsWithin a }
    ensures { result ≡ spec.quotients_by a b }
{
    if b.is_empty() {
        Body::Empty
    } else if has_zero(b) {
        let reach = reach(a);
        Body::integers(negated(reach), reach)
    } else {
        let span = over_quotients(a, b);
        Body::integers(span.lo, span.hi)
    }
}

/// From the least to the greatest quotient of ends, where no end of the divisor is 0.
fn over_quotients(a: Interval, b: Interval) -> Interval
    requires within { IsWithin a }
    requires low { b.lo ≡ pos 0 → ⊥ }
    requires high { b.hi ≡ pos 0 → ⊥ }
    ensures { result ≡ spec.over_ends int_div a b }
{
    over(
        divided(a.lo, b.lo),
        divided(a.lo, b.hi),
        divided(a.hi, b.lo),
        divided(a.hi, b.hi),
    )
}

fn divided(m: i64, n: i64) -> i64
    requires within { InRange m }
    requires other { n ≡ pos 0 → ⊥ }
    ensures { result ≡ int_div m n }
{
    m / n
}
