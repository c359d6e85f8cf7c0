//! What the rows of integers share.
ghost use Rattle.std.specs.Prelude.{◌≡◌, ℤ, Option, option_map};
ghost use Rattle.eb_value.specs.declared.value.Value.{Value};
ghost use Rattle.eb_value.specs.Values.{int};
ghost use Rattle.occ_domains.specs.Domains as domains;
ghost use Rattle.rules_integers.specs.Ends as spec;

use eb_value::LIMIT;
use int_dom::Interval;
use occ_domains::{Body, Domain};

/// The integer, or the end of the range that it lies beyond.
pub(crate) fn clip(n: i64) -> i64
    ensures { result ≡ spec.clip n }
{
    n.min(LIMIT).max(-LIMIT)
}

pub(crate) fn clipped(lo: i64, hi: i64) -> Interval
    ensures { result ≡ spec.clipped lo hi }
{
    Interval {
        lo: clip(lo),
        hi: clip(hi),
    }
}

/// Whether an end lies beyond the range.
fn is_spread(lo: i64, hi: i64) -> bool
    ensures { result ≡ spec.is_spread lo hi }
{
    !(-LIMIT <= lo && lo <= LIMIT && -LIMIT <= hi && hi <= LIMIT)
}

/// The domain of the one value, or of Undefined.
pub(crate) fn only(n: Option<i64>) -> Domain
    ensures { result ≡ domains.only (option_map int n) }
{
    match n {
        Some(n) => Domain::Values(Body::Integers(Interval { lo: n, hi: n }), false),
        None => Domain::Values(Body::Empty, true),
    }
}

/// What an operator on two expressions may be, of which the value on the lower ends is given, and what is known else.
pub(crate) fn by_ends(
    defined: bool,
    value: Option<i64>,
    body: Body,
    undefined: bool,
    a: Interval,
    b: Interval,
) -> Domain
    ensures { (f : ℤ → ℤ → Option Value) → option_map int value ≡ f a.lo b.lo → result ≡ spec.by_ends defined f body undefined a b }
{
    if defined && a.is_single() && b.is_single() {
        only(value)
    } else {
        Domain::Values(body, undefined || !defined)
    }
}

/// The interval with its ends clipped.
pub(crate) fn within(d: Interval) -> Interval
    ensures { result ≡ spec.within d }
{
    clipped(d.lo, d.hi)
}

/// The same, where what is known else are the integers of an interval, as far as they are of the range.
pub(crate) fn by_span(
    defined: bool,
    value: Option<i64>,
    d: Interval,
    a: Interval,
    b: Interval,
) -> Domain
    ensures { (f : ℤ → ℤ → Option Value) → option_map int value ≡ f a.lo b.lo → result ≡ spec.by_span defined f d a b }
{
    let ends = clipped(d.lo, d.hi);
    let body = Body::integers(ends.lo, ends.hi);
    by_ends(defined, value, body, is_spread(d.lo, d.hi), a, b)
}
