//! The row of `^`.
ghost use Rattle.std.specs.Prelude.{◌≡◌, ◌&&◌, ◌||◌, not, ℤ, pos, int_le, int_lt, option_map, true, false, Some, None};
ghost use Rattle.eb_value.specs.declared.value.Value.{Value};
ghost use Rattle.eb_value.specs.Values.{int};
ghost use Rattle.eb_value.specs.Typing.{in_range};
ghost use Rattle.eb_operations.specs.Arithmetic as arithmetic;
ghost use Rattle.int_dom.specs.Intervals.{Has};
ghost use Rattle.occ_domains.specs.Domains.{has, slot, is_normal};
ghost use Rattle.rules_integers.specs.Ends.{greatest};
ghost use Rattle.rules_integers.specs.Powers as spec;

use crate::ends::{by_ends, clipped};
use eb_operations::power;
use eb_value::LIMIT;
use int_dom::Interval;
use occ_domains::{Body, Domain};

/// What `a ^ b` may be, where the sides are integers of these intervals, and each is defined or either may be Undefined.
pub fn up_power(defined: bool, a: Interval, b: Interval) -> Domain
    ensures row { result ≡ spec.up_power defined a b }
    ensures sound { (m n : ℤ) → Has a m → Has b n → has result (slot (arithmetic.power m n)) ≡ true }
    ensures undefined { defined ≡ false → has result (slot None) ≡ true }
    ensures normal { is_normal result ≡ true }
{
    powers(defined, a, b)
}

/// The integers of a side of `a ^ b` that has a value.
pub fn down_power() -> Interval
    ensures row { result ≡ spec.down_power }
    ensures sound { (m n : ℤ) (v : Value) → in_range m ≡ true → in_range n ≡ true → arithmetic.power m n ≡ Some v → Has result m × Has result n }
{
    clipped(0, LIMIT)
}

fn powers(defined: bool, a: Interval, b: Interval) -> Domain
    ensures { result ≡ spec.up_power defined a b }
{
    let highest = greatest_power(a, b);
    let undefined = may_be_undefined(a, b, highest);
    let body = powers_to(a, b, highest);
    by_ends(defined, power(a.lo, b.lo), body, undefined, a, b)
}

/// Whether a side may be below 0, or the power of the upper ends lies beyond the range.
fn may_be_undefined(a: Interval, b: Interval, highest: Option<i64>) -> bool
    requires { option_map int highest ≡ arithmetic.defined_int (spec.greatest_power a b) }
    ensures { result ≡ (not (int_le (pos 0) a.lo && int_le (pos 0) b.lo) || int_lt greatest (spec.greatest_power a b)) }
{
    a.lo < 0 || b.lo < 0 || highest.is_none()
}

/// The powers up to the highest, or to the range's end where that lies beyond it.
fn powers_to(a: Interval, b: Interval, highest: Option<i64>) -> Body
    requires { option_map int highest ≡ arithmetic.defined_int (spec.greatest_power a b) }
    ensures { result ≡ spec.powers a b }
{
    if a.hi < 0 || b.hi < 0 {
        return Body::Empty;
    }
    match least_power(a, b) {
        Some(lowest) => Body::integers(lowest, highest.unwrap_or(LIMIT)),
        None => Body::Empty,
    }
}

/// The power of the lower ends, where it is within the range: 0 where the base may be 0.
fn least_power(a: Interval, b: Interval) -> Option<i64>
    ensures { option_map int result ≡ arithmetic.defined_int (spec.least_power a b) }
{
    if 1 <= a.lo {
        power(a.lo, natural(b.lo))
    } else {
        Some(0)
    }
}

/// The power of the upper ends, 1 at least, where it is within the range.
fn greatest_power(a: Interval, b: Interval) -> Option<i64>
    ensures { option_map int result ≡ arithmetic.defined_int (spec.greatest_power a b) }
{
    match power(natural(a.hi), natural(b.hi)) {
        Some(highest) => Some(highest.max(1)),
        None => None,
    }
}

/// The integer, or 0 where it is below.
fn natural(n: i64) -> i64
    ensures { result ≡ spec.natural n }
{
    n.max(0)
}
