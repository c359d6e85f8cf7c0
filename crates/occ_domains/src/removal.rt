ghost use Rattle.std.specs.Prelude.{◌≡◌, ◌+ℤ◌, ◌-ℤ◌, pos, filter, true, false, IfOk};
ghost use Rattle.eb_value.specs.declared.value.Value.{Value as TheValue};
ghost use Rattle.eb_value.specs.Comprehensions.{same};
ghost use Rattle.occ_domains.specs.Bodies as spec;

use crate::body::Body;
use eb_value::{Form, Value, Values, compare, order_is_total};
use int_dom::Interval;
use std::alloc::{AllocError, Global};

/// A body without a value, as far as a body can be: a list without it, an interval without an end. Every other value stays.
/// In normal form where the body is. The only error is want of memory.
pub fn without(alloc: Global, body: &Body, value: &Value) -> Result<Body, AllocError>
    ensures equals { IfOk result (λ b. b ≡ spec.without body.now value.now) }
    ensures normal { spec.is_normal body.now ≡ true → IfOk result (λ b. spec.is_normal b ≡ true) }
    ensures others { IfOk result (λ b. (v : TheValue) → spec.has body.now v ≡ true → same v value.now ≡ false → spec.has b v ≡ true) }
{
    order_is_total();
    removed(alloc, body, value)
}

fn removed(alloc: Global, body: &Body, value: &Value) -> Result<Body, AllocError>
    ensures { IfOk result (λ b. b ≡ spec.without body.now value.now) }
{
    match body {
        Body::Integers(d) => Ok(without_integer(*d, value)),
        Body::Members(values) => {
            let others = others(alloc, values.as_slice(), value)?;
            Ok(Body::members(others))
        }
        _ => {
            let copy = body.copied(alloc)?;
            Ok(copy)
        }
    }
}

/// An interval without a value.
fn without_integer(d: Interval, value: &Value) -> Body
    ensures { result ≡ spec.without_integer d value.now }
{
    match &value.form {
        Form::Int(n) => but_for(d, *n),
        _ => Body::Integers(d),
    }
}

/// An interval without an integer that is one of its ends.
fn but_for(d: Interval, n: i64) -> Body
    ensures { result ≡ spec.integers (spec.but_for n d) }
{
    if n == d.lo {
        from_above(n, d.hi)
    } else if n == d.hi {
        to_below(d.lo, n)
    } else {
        Body::integers(d.lo, d.hi)
    }
}

/// The integers above one, up to another.
fn from_above(n: i64, hi: i64) -> Body
    ensures { result ≡ spec.integers (record { lo = n +ℤ pos 1; hi = hi }) }
{
    if n < hi {
        Body::integers(n + 1, hi)
    } else {
        Body::Empty
    }
}

/// The integers from one on, below another.
fn to_below(lo: i64, n: i64) -> Body
    ensures { result ≡ spec.integers (record { lo = lo; hi = n -ℤ pos 1 }) }
{
    if lo < n {
        Body::integers(lo, n - 1)
    } else {
        Body::Empty
    }
}

/// The other values of a list.
fn others(alloc: Global, values: &[Value], value: &Value) -> Result<Values, AllocError>
    ensures { IfOk result (λ vs. vs ≡ filter (spec.is_other value.now) values.now) }
{
    let mut others = Values::new(alloc);
    for other in values {
        if !compare(other, value).is_eq() {
            others.push(other.copied(alloc)?)?;
        }
    }
    Ok(others)
}
