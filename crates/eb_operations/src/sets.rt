//! The sets that are constants: `id`, `prj1` and `prj2` over the values of types.
ghost use Rattle.std.specs.Prelude.{◌≡◌, ◌++◌, IfOk, OnOk, map};
ghost use Rattle.std.specs.List.{flat_map};
ghost use Rattle.eb_value.specs.Canonical.{IsCanonical, AreCanonical};
ghost use Rattle.eb_value.specs.Comprehensions as sets;
ghost use Rattle.eb_value.specs.Scopes.{vals};
ghost use Rattle.eb_value.specs.Values as value;
ghost use Rattle.eb_operations.specs.Operations as spec;

use eb_term::Side;
use eb_value::{
    EbType, Scope, Value, Values, canonical_values_have_canonical_parts,
    operators_keep_values_canonical, set_of, values,
};
use std::alloc::{AllocError, Global};

/// The values of a type in the scope. The only error is want of memory.
pub fn listed(alloc: Global, scope: &Scope, ty: &EbType) -> Result<Values, AllocError>
    ensures values { IfOk result (λ vs. vs ≡ vals scope.now ty.now) }
    ensures canonical { IfOk result (λ vs. AreCanonical vs) }
{
    canonical_values_have_canonical_parts();
    let all = values(alloc, ty, scope)?;
    Ok(all)
}

/// `id` over the values of a type. The only error is want of memory.
pub fn identity(alloc: Global, scope: &Scope, ty: &EbType) -> Result<Value, AllocError>
    ensures value { IfOk result (λ v. v ≡ value.set (sets.set_of (map (λ x. value.pair x x) (vals scope.now ty.now)))) }
    ensures canonical { IfOk result IsCanonical }
{
    operators_keep_values_canonical();
    canonical_values_have_canonical_parts();
    let values = values(alloc, ty, scope)?;
    let pairs = doubled(alloc, values.as_slice())?;
    Ok(Value::set(set_of(pairs)))
}

/// Each value with itself.
fn doubled(alloc: Global, values: &[Value]) -> Result<Vec<Value>, AllocError>
    ensures { IfOk result (λ vs. vs.items ≡ map (λ x. value.pair x x) values.now) }
{
    let mut pairs = Vec::new(alloc);
    for value in values {
        let first = value.copied(alloc)?;
        let second = value.copied(alloc)?;
        pairs.push(Value::pair(alloc, first, second)?)?;
    }
    Ok(pairs)
}

/// `prj1` or `prj2` over the pairs of values of two types. The only error is want of memory.
pub fn projection(
    alloc: Global,
    scope: &Scope,
    side: Side,
    first: &EbType,
    second: &EbType,
) -> Result<Value, AllocError>
    ensures value { IfOk result (λ v. v ≡ value.set (sets.set_of (flat_map (λ x. map (spec.maplet_of_projection side x) (vals scope.now second.now)) (vals scope.now first.now)))) }
    ensures canonical { IfOk result IsCanonical }
{
    operators_keep_values_canonical();
    canonical_values_have_canonical_parts();
    let firsts = values(alloc, first, scope)?;
    let seconds = values(alloc, second, scope)?;
    let maplets = projected(alloc, side, firsts.as_slice(), seconds.as_slice())?;
    Ok(Value::set(set_of(maplets)))
}

/// The pairs of the values, each with its side.
fn projected(
    alloc: Global,
    side: Side,
    firsts: &[Value],
    seconds: &[Value],
) -> Result<Vec<Value>, AllocError>
    ensures { IfOk result (λ vs. vs.items ≡ flat_map (λ x. map (spec.maplet_of_projection side x) seconds.now) firsts.now) }
{
    let mut maplets = Vec::new(alloc);
    for x in firsts {
        push_projected(alloc, &mut maplets, side, x, seconds)?;
    }
    Ok(maplets)
}

/// The pairs of a value with each of the others, with the side of each.
fn push_projected(
    alloc: Global,
    maplets: &mut Vec<Value>,
    side: Side,
    x: &Value,
    seconds: &[Value],
) -> Result<(), AllocError>
    ensures { OnOk result (maplets.new.items ≡ maplets.old.items ++ map (spec.maplet_of_projection side x.now) seconds.now) }
{
    for y in seconds {
        let pair = Value::pair(alloc, x.copied(alloc)?, y.copied(alloc)?)?;
        let part = match side {
            Side::First => x.copied(alloc)?,
            Side::Second => y.copied(alloc)?,
        };
        maplets.push(Value::pair(alloc, pair, part)?)?;
    }
    Ok(())
}
