ghost use Rattle.std.specs.Prelude.{◌≡◌, ◌≤ℤ◌, pos, negsuc, true, IfOk, Contains};
ghost use Rattle.eb_value.specs.declared.value.Value.{Value};
ghost use Rattle.eb_value.specs.Scopes.{vals};
ghost use Rattle.eb_value.specs.Typing.{has_type};
ghost use Rattle.occ_domains.specs.Bodies.{has, is_normal};
ghost use Rattle.occ_domains.specs.Wholes as spec;

use crate::body::Body;
use eb_value::{
    EbType, LIMIT, Scope, Shape, order_is_total, values, values_are_ascending, values_are_complete,
};
use int_dom::Interval;
use std::alloc::{AllocError, Global};

/// All values of the type, in normal form: each value of the type is one of the body's, and where the type has no
/// sets nothing else is. The only error is want of memory.
pub fn whole(alloc: Global, ty: &EbType, scope: &Scope) -> Result<Body, AllocError>
    ensures equals { IfOk result (λ b. b ≡ spec.whole scope.now ty.now) }
    ensures normal { IfOk result (λ b. is_normal b ≡ true) }
    ensures each { IfOk result (λ b. (v : Value) → has_type scope.now v ty.now ≡ true → has b v ≡ true) }
    ensures alone { spec.is_without_sets ty.now ≡ true
        → IfOk result (λ b. (v : Value) → has b v ≡ true → has_type scope.now v ty.now ≡ true) }
{
    order_is_total();
    values_are_ascending();
    values_are_complete();
    unbounded(alloc, ty, scope)
}

fn unbounded(alloc: Global, ty: &EbType, scope: &Scope) -> Result<Body, AllocError>
    ensures { IfOk result (λ b. b ≡ spec.whole scope.now ty.now) }
{
    let all = Interval {
        lo: -LIMIT,
        hi: LIMIT,
    };
    spanned(alloc, ty, all, scope)
}

/// The values of the type in the scope, in normal form: each of them is one of the body's, and where the type has no
/// sets nothing else is. The only error is want of memory.
pub fn first(alloc: Global, ty: &EbType, scope: &Scope) -> Result<Body, AllocError>
    ensures equals { IfOk result (λ b. b ≡ spec.first scope.now ty.now) }
    ensures normal { IfOk result (λ b. is_normal b ≡ true) }
    ensures each { negsuc 4611686018427387903 ≤ℤ scope.now.lo → scope.now.hi ≤ℤ pos 4611686018427387904
        → IfOk result (λ b. (v : Value) → Contains (vals scope.now ty.now) v → has b v ≡ true) }
    ensures alone { negsuc 4611686018427387903 ≤ℤ scope.now.lo → scope.now.hi ≤ℤ pos 4611686018427387904
        → spec.is_without_sets ty.now ≡ true
        → IfOk result (λ b. (v : Value) → has b v ≡ true → Contains (vals scope.now ty.now) v) }
{
    order_is_total();
    values_are_ascending();
    values_are_complete();
    within(alloc, ty, scope)
}

fn within(alloc: Global, ty: &EbType, scope: &Scope) -> Result<Body, AllocError>
    ensures { IfOk result (λ b. b ≡ spec.first scope.now ty.now) }
{
    let bounds = Interval {
        lo: scope.lo,
        hi: scope.hi,
    };
    spanned(alloc, ty, bounds, scope)
}

/// The values of the type, with the integers of the interval in place of all.
fn spanned(alloc: Global, ty: &EbType, d: Interval, scope: &Scope) -> Result<Body, AllocError>
    ensures { IfOk result (λ b. b ≡ spec.spanned d scope.now ty.now) }
{
    match &ty.shape {
        Shape::Integer => Ok(Body::integers(d.lo, d.hi)),
        Shape::Bool | Shape::Carrier(_) => {
            let all = values(alloc, ty, scope)?;
            Ok(Body::members(all))
        }
        Shape::Product(s, t) => {
            let first = spanned(alloc, s.get(), d, scope)?;
            let second = spanned(alloc, t.get(), d, scope)?;
            Body::pairs(alloc, first, second)
        }
        Shape::Power(_) => Ok(Body::AllSets),
    }
}

/// Whether no part of the type is a type of sets.
pub fn is_without_sets(ty: &EbType) -> bool
    ensures { result ≡ spec.is_without_sets ty.now }
{
    match &ty.shape {
        Shape::Integer | Shape::Bool | Shape::Carrier(_) => true,
        Shape::Product(first, second) => {
            is_without_sets(first.get()) && is_without_sets(second.get())
        }
        Shape::Power(_) => false,
    }
}
