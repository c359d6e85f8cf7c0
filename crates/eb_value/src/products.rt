//! Products of sets and of relations. A member of a relation that is no pair counts for nothing.

ghost use Rattle.std.specs.Prelude.{◌≡◌, ◌++◌, ◌⊎◌, ◌↔◌, true, length, take_while, IfOk, OnOk, Contains};
ghost use Rattle.std.specs.List.{filter_map};
ghost use Rattle.eb_value.specs.declared.value.Value.{Value};
ghost use Rattle.eb_value.specs.steps.Joins as step;
ghost use Rattle.eb_value.specs.steps.Merges.{second_of};
ghost use Rattle.eb_value.specs.Relations as spec;
ghost use Rattle.eb_value.specs.Sets.{IsSetOf};
ghost use Rattle.eb_value.specs.Comprehensions as set;
ghost use Rattle.eb_value.specs.Values.{is_ascending, layer};

use crate::listing::{pair_of, pairs, push_pairs};
use crate::lists::Values;
use crate::merges::{first_of, same_first, second_of};
use crate::order::compare;
use crate::sets::set_of;
use crate::value::{Form, Value};
use std::alloc::{AllocError, Global};
use std::cmp::Ordering;

/// a × b. The only error is want of memory.
pub fn cross(alloc: Global, a: &Values, b: &Values) -> Result<Values, AllocError>
    requires first { is_ascending a.now ≡ true }
    requires second { is_ascending b.now ≡ true }
    ensures is_set { IfOk result (IsSetOf (spec.InCross a.now b.now)) }
    ensures equals { IfOk result (λ xs. xs ≡ set.cross a.now b.now) }
{
    pairs(alloc, a.as_slice(), b.as_slice())
}

/// r ; s, first r and then s. The only error is want of memory. Where r is ascending, it takes no
/// more than a small multiple of the memory of r, s and the result.
pub fn compose(alloc: Global, r: &Values, s: &Values) -> Result<Values, AllocError>
    requires { is_ascending s.now ≡ true }
    ensures is_set { IfOk result (IsSetOf (spec.InCompose r.now s.now)) }
    ensures equals { IfOk result (λ xs. xs ≡ set.compose r.now s.now) }
{
    let mut all = Vec::new(alloc);
    let mut rest = r.as_slice();
    while let Some((value, others)) = rest.split_first() {
        let (run, after) = rest.split_at(run_length(value, others) + 1);
        push_composed(alloc, &mut all, value, run, s.as_slice())?;
        rest = after;
    }
    Ok(set_of(all))
}

/// How many values at the front have the first of `value`.
fn run_length(value: &Value, others: &[Value]) -> usize
    ensures { result ≡ length (take_while (step.has_first_of value.now) others.now) }
{
    others
        .iter()
        .take_while(|other| same_first(value, *other))
        .count()
}

/// Adds what the pairs of a run, which have the first of `value`, compose to.
fn push_composed(
    alloc: Global,
    all: &mut Vec<Value>,
    value: &Value,
    run: &[Value],
    s: &[Value],
) -> Result<(), AllocError>
    requires first { step.HaveFirstOf value.now run.now }
    requires relation { is_ascending s.now ≡ true }
    ensures { OnOk result ((v : Value) → Contains all.new.items v
        ↔ (Contains all.old.items v ⊎ spec.InCompose run.now s.now v)) }
{
    if let Some(first) = first_of(value) {
        let seconds = set_of(ends(alloc, run, s)?);
        push_pairs(alloc, all, first, seconds.as_slice())?;
    }
    Ok(())
}

/// The seconds of the pairs of `s` whose first is the second of a pair of the run. The seconds of
/// an ascending run are distinct, so there are at most as many as `s` has pairs.
fn ends(alloc: Global, run: &[Value], s: &[Value]) -> Result<Vec<Value>, AllocError>
    requires { is_ascending s.now ≡ true }
    ensures { IfOk result (λ all. all.items ≡ step.ends s.now run.now) }
{
    let mut all = Vec::new(alloc);
    for value in run {
        push_ends(alloc, &mut all, value, s)?;
    }
    Ok(all)
}

fn push_ends(
    alloc: Global,
    all: &mut Vec<Value>,
    value: &Value,
    s: &[Value],
) -> Result<(), AllocError>
    requires { is_ascending s.now ≡ true }
    ensures { OnOk result (all.new.items
        ≡ all.old.items ++ step.ends_behind s.now (second_of value.now)) }
{
    if let Some(middle) = second_of(value) {
        push_seconds(alloc, all, images(s, middle))?;
    }
    Ok(())
}

fn push_seconds(alloc: Global, all: &mut Vec<Value>, pairs: &[Value]) -> Result<(), AllocError>
    ensures { OnOk result (all.new.items ≡ all.old.items ++ filter_map second_of pairs.now) }
{
    for pair in pairs {
        if let Some(second) = second_of(pair) {
            all.push(second.copied(alloc)?)?;
        }
    }
    Ok(())
}

/// r ⊗ s, the direct product: x ↦ (y ↦ z), where r has x ↦ y and s has x ↦ z. The only error
/// is want of memory.
pub fn direct(alloc: Global, r: &Values, s: &Values) -> Result<Values, AllocError>
    requires { is_ascending s.now ≡ true }
    ensures is_set { IfOk result (IsSetOf (spec.InDirect r.now s.now)) }
    ensures equals { IfOk result (λ xs. xs ≡ set.direct r.now s.now) }
{
    Ok(set_of(joins(alloc, r.as_slice(), s.as_slice(), Join::Direct)?))
}

/// r ∥ s, the parallel product: (x ↦ u) ↦ (y ↦ z), where r has x ↦ y and s has u ↦ z. The
/// only error is want of memory.
pub fn parallel(alloc: Global, r: &Values, s: &Values) -> Result<Values, AllocError>
    requires { is_ascending s.now ≡ true }
    ensures is_set { IfOk result (IsSetOf (spec.InParallel r.now s.now)) }
    ensures equals { IfOk result (λ xs. xs ≡ set.parallel r.now s.now) }
{
    Ok(set_of(joins(alloc, r.as_slice(), s.as_slice(), Join::Parallel)?))
}

/// How a pair of one relation and a pair of another make a pair.
#[derive(Clone, Copy)]
enum Join {
    Direct,
    Parallel,
}

fn join_of(
    alloc: Global,
    join: Join,
    x: &Value,
    y: &Value,
    u: &Value,
    z: &Value,
) -> Result<Value, AllocError>
    ensures { IfOk result (λ v. v ≡ step.join_of join x.now y.now u.now z.now) }
{
    match join {
        Join::Direct => {
            let seconds = pair_of(alloc, y, z)?;
            pair_of(alloc, x, &seconds)
        }
        Join::Parallel => {
            let firsts = pair_of(alloc, x, u)?;
            let seconds = pair_of(alloc, y, z)?;
            pair_of(alloc, &firsts, &seconds)
        }
    }
}

/// What the pair of x and y is joined to, where the other value is a pair.
fn join_with(
    alloc: Global,
    join: Join,
    x: &Value,
    y: &Value,
    other: &Value,
) -> Result<Option<Value>, AllocError>
    ensures { IfOk result (λ o. o ≡ step.join_with join x.now y.now other.now) }
{
    let Form::Pair(u, z) = &other.form else {
        return Ok(None);
    };
    Ok(Some(join_of(alloc, join, x, y, u.get(), z.get())?))
}

/// Where a value stands against the pairs with the first `k`.
fn side(value: &Value, k: &Value) -> Ordering
    ensures { result ≡ step.side k.now value.now }
{
    match &value.form {
        Form::Pair(first, _) => compare(first.get(), k),
        Form::Set(_) => Ordering::Greater,
        _ => Ordering::Less,
    }
}

/// The pairs with the first `k`, by binary search.
pub(crate) fn images<'a>(s: &'a [Value], k: &Value) -> &'a [Value]
    requires { is_ascending s.now ≡ true }
    ensures { result.now ≡ step.images k.now s.now }
{
    let start = s.partition_point(|value| side(value, k).is_lt());
    let end = s.partition_point(|value| side(value, k).is_le());
    &s[start..end]
}

/// The pairs that are joined to the pair of x and y.
fn partners<'a>(s: &'a [Value], join: Join, x: &Value, y: &Value) -> &'a [Value]
    requires { is_ascending s.now ≡ true }
    ensures { result.now ≡ step.partners join x.now y.now s.now }
{
    match join {
        Join::Direct => images(s, x),
        Join::Parallel => s,
    }
}

fn push_joins(
    alloc: Global,
    all: &mut Vec<Value>,
    x: &Value,
    y: &Value,
    others: &[Value],
    join: Join,
) -> Result<(), AllocError>
    ensures { OnOk result (all.new.items
        ≡ all.old.items ++ filter_map (step.join_with join x.now y.now) others.now) }
{
    for other in others {
        if let Some(joined) = join_with(alloc, join, x, y, other)? {
            all.push(joined)?;
        }
    }
    Ok(())
}

fn joins(alloc: Global, r: &[Value], s: &[Value], join: Join) -> Result<Vec<Value>, AllocError>
    requires { is_ascending s.now ≡ true }
    ensures { IfOk result (λ all. all.items ≡ step.joins join r.now s.now) }
{
    let mut all = Vec::new(alloc);
    for value in r {
        push_joins_of(alloc, &mut all, value, s, join)?;
    }
    Ok(all)
}

/// Adds what a member of the one relation is joined to in the other.
fn push_joins_of(
    alloc: Global,
    all: &mut Vec<Value>,
    value: &Value,
    s: &[Value],
    join: Join,
) -> Result<(), AllocError>
    requires { is_ascending s.now ≡ true }
    ensures { OnOk result (all.new.items ≡ all.old.items ++ step.joins_in join s.now (layer value.now)) }
{
    if let Form::Pair(x, y) = &value.form {
        let others = partners(s, join, x.get(), y.get());
        push_joins(alloc, all, x.get(), y.get(), others, join)?;
    }
    Ok(())
}
