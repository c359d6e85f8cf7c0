//! The rows by operator.
ghost use Rattle.std.specs.Prelude.{◌≡◌, ℤ, true, false, Some, None};
ghost use Rattle.eb_value.specs.declared.value.Value.{Value};
ghost use Rattle.eb_value.specs.Values.{layer};
ghost use Rattle.eb_value.specs.Typing.{in_range};
ghost use Rattle.int_dom.specs.Intervals.{Has};
ghost use Rattle.occ_domains.specs.declared.body.Body.TheOpen as body;
ghost use Rattle.occ_domains.specs.Bodies.{has_at};
ghost use Rattle.occ_domains.specs.Domains.{has, slot, is_normal};
ghost use Rattle.rules_integers.specs.Arithmetic as spec;

use crate::powers::{down_power, up_power};
use crate::products::{
    down_divisor, down_product, down_remainder, up_product, up_quotient, up_remainder,
};
use crate::sums::{down_difference, down_sum, up_difference, up_sum};
use eb_term::Side;
use int_dom::Interval;
use occ_domains::Domain;

/// An operator on two integers.
#[derive(Clone, Copy)]
pub enum Arithmetic {
    /// `a + b`
    Sum,
    /// `a - b`
    Difference,
    /// `a * b`
    Product,
    /// `a / b`, truncated towards zero
    Quotient,
    /// `a mod b`
    Remainder,
    /// `a ^ b`
    Power,
}

/// What the operator may be, where the sides are integers of these intervals, and each is defined or either may be Undefined.
/// In normal form.
pub fn up_arithmetic(operator: Arithmetic, defined: bool, a: Interval, b: Interval) -> Domain
    ensures row { result ≡ spec.up_by operator defined a b }
    ensures sound { (m n : ℤ) → in_range m ≡ true → in_range n ≡ true → Has a m → Has b n → has result (slot (spec.value_by operator m n)) ≡ true }
    ensures undefined { defined ≡ false → has result (slot None) ≡ true }
    ensures normal { is_normal result ≡ true }
{
    risen(operator, defined, a, b)
}

fn risen(operator: Arithmetic, defined: bool, a: Interval, b: Interval) -> Domain
    ensures { result ≡ spec.up_by operator defined a b }
{
    match operator {
        Arithmetic::Sum => up_sum(defined, a, b),
        Arithmetic::Difference => up_difference(defined, a, b),
        Arithmetic::Product => up_product(defined, a, b),
        Arithmetic::Quotient => up_quotient(defined, a, b),
        Arithmetic::Remainder => up_remainder(defined, a, b),
        Arithmetic::Power => up_power(defined, a, b),
    }
}

/// The integers of a side, where the operator has a value, and it, the side and the other side are integers of these intervals.
pub fn down_arithmetic(
    operator: Arithmetic,
    side: Side,
    whole: Interval,
    part: Interval,
    other: Interval,
) -> Interval
    ensures row { result ≡ spec.down_by operator side whole part other }
    ensures sound { (m n : ℤ) (v : Value) → in_range m ≡ true → in_range n ≡ true → spec.value_at operator side m n ≡ Some v → has_at (body.Integers whole) v (layer v) ≡ true
        → Has part m → Has other n → Has result m }
{
    fallen(operator, side, whole, part, other)
}

fn fallen(
    operator: Arithmetic,
    side: Side,
    whole: Interval,
    part: Interval,
    other: Interval,
) -> Interval
    ensures { result ≡ spec.down_by operator side whole part other }
{
    match operator {
        Arithmetic::Sum => down_sum(whole, other),
        Arithmetic::Difference => down_difference(side, whole, other),
        Arithmetic::Product => down_product(whole, other),
        Arithmetic::Quotient => down_quotient(side, part),
        Arithmetic::Remainder => down_remainder(side, whole),
        Arithmetic::Power => down_power(),
    }
}

/// The integers of a side of `a / b`.
fn down_quotient(side: Side, part: Interval) -> Interval
    ensures { result ≡ spec.down_quotient side part }
{
    match side {
        Side::First => part,
        Side::Second => down_divisor(part),
    }
}
