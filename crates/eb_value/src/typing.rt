ghost use Rattle.std.specs.Prelude.{◌≡◌, min, ◌-◌, ◌^◌, length};
ghost use Rattle.std.specs.List.{list_all};
ghost use Rattle.eb_value.specs.Scopes.{vals};
ghost use Rattle.eb_value.specs.Counts.{cardinal, integers_within};
ghost use Rattle.eb_value.specs.Typing as spec;

use crate::order::is_ascending;
use crate::scope::Scope;
use crate::types::{EbType, Shape};
use crate::value::{Form, LIMIT, Value};

/// Whether the value is one of the type: it has the type's shape, its integers lie within 62
/// bits, its atoms number from 1 to the size of their carrier set (of which there is none
/// where the scope gives no size), and its sets are ascending.
#[cycle(typing)]
pub fn has_type(v: &Value, ty: &EbType, scope: &Scope) -> bool
    ensures { result ≡ spec.has_type scope.now v.now ty.now }
{
    match (&v.form, &ty.shape) {
        (Form::Int(n), Shape::Integer) => -LIMIT <= *n && *n <= LIMIT,
        (Form::Bool(_), Shape::Bool) => true,
        (Form::Atom(set, number), Shape::Carrier(place)) => {
            *set == *place && *number >= 1 && *number <= size_of(scope, *set)
        }
        (Form::Pair(a, b), Shape::Product(s, t)) => {
            has_type(a.get(), s.get(), scope) && has_type(b.get(), t.get(), scope)
        }
        (Form::Set(members), Shape::Power(t)) => {
            is_ascending(members.as_slice()) && all_have_type(members.as_slice(), t.get(), scope)
        }
        _ => false,
    }
}

#[cycle(typing)]
fn all_have_type(values: &[Value], ty: &EbType, scope: &Scope) -> bool
    ensures { result ≡ list_all (λ v. spec.has_type scope.now v ty.now) values.now }
{
    for value in values {
        if !has_type(value, ty, scope) {
            return false;
        }
    }
    true
}

/// How many atoms a carrier set has.
pub(crate) fn size_of(scope: &Scope, place: u32) -> u32
    ensures { result ≡ spec.size_of scope.now.sizes place }
{
    scope.sizes.get(place as usize).copied().unwrap_or(0)
}

/// How many values of the type the scope has, or `u64::MAX` where there are more.
pub fn count(ty: &EbType, scope: &Scope) -> u64
    ensures { result ≡ min (length (vals scope.now ty.now)) (2 ^ 64 - 1) }
{
    cardinal(ty, scope)
}

fn cardinal(ty: &EbType, scope: &Scope) -> u64
    ensures { result ≡ min (cardinal scope.now ty.now) (2 ^ 64 - 1) }
{
    match &ty.shape {
        Shape::Integer => integers_within(scope.lo, scope.hi),
        Shape::Bool => 2,
        Shape::Carrier(place) => size_of(scope, *place).into(),
        Shape::Product(s, t) => {
            let first = cardinal(s.get(), scope);
            first.saturating_mul(cardinal(t.get(), scope))
        }
        Shape::Power(t) => subsets_of(cardinal(t.get(), scope)),
    }
}

fn integers_within(lo: i64, hi: i64) -> u64
    ensures { result ≡ min (integers_within lo hi) (2 ^ 64 - 1) }
{
    if lo <= hi {
        hi.abs_diff(lo).saturating_add(1)
    } else {
        0
    }
}

/// 2 to the number.
fn subsets_of(members: u64) -> u64
    ensures { result ≡ min (2 ^ members) (2 ^ 64 - 1) }
{
    if members < 64 { 1 << members } else { u64::MAX }
}
