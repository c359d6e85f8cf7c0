ghost use Rattle.std.specs.Prelude.{◌≡◌, ◌++◌, IfOk, OnOk};
ghost use Rattle.std.specs.Option.{option_copied};
ghost use Rattle.eb_value.specs.steps.Merges as spec;

use crate::lists::Values;
use crate::order::compare;
use crate::value::{Form, Value, push_copy, values_copied};
use std::alloc::{AllocError, Global};
use std::cmp::Ordering;

/// By what a value is looked up: itself, or the first of the pair that it is.
#[derive(Clone, Copy)]
pub(crate) enum Key {
    Itself,
    First,
}

/// The first of a pair, and none of another value.
pub(crate) fn first_of(value: &Value) -> Option<&Value>
    ensures { option_copied result ≡ spec.first_of value.now }
{
    match &value.form {
        Form::Pair(first, _) => Some(first.get()),
        _ => None,
    }
}

/// The second of a pair, and none of another value.
pub(crate) fn second_of(value: &Value) -> Option<&Value>
    ensures { option_copied result ≡ spec.second_of value.now }
{
    match &value.form {
        Form::Pair(_, second) => Some(second.get()),
        _ => None,
    }
}

/// Whether both are pairs with one first.
pub(crate) fn same_first(v: &Value, w: &Value) -> bool
    ensures { result ≡ spec.same_key (spec.first_of v.now) (spec.first_of w.now) }
{
    match (first_of(v), first_of(w)) {
        (Some(a), Some(b)) => compare(a, b).is_eq(),
        _ => false,
    }
}

fn key_of(key: Key, value: &Value) -> Option<&Value>
    ensures { option_copied result ≡ spec.key_of key value.now }
{
    match key {
        Key::Itself => Some(value),
        Key::First => first_of(value),
    }
}

/// The values from the first that isn't below `value`.
fn from_value<'a>(values: &'a [Value], value: &Value) -> &'a [Value]
    ensures { result.now ≡ spec.from_value value.now values.now }
{
    let mut rest = values;
    while let [first, others @ ..] = rest {
        if compare(first, value) != Ordering::Less {
            return rest;
        }
        rest = others;
    }
    rest
}

fn begins_with(values: &[Value], value: &Value) -> bool
    ensures { result ≡ spec.begins_with value.now values.now }
{
    match values {
        [first, ..] => compare(first, value).is_eq(),
        [] => false,
    }
}

/// The values without `value` at their front.
fn after_value<'a>(values: &'a [Value], value: &Value) -> &'a [Value]
    ensures { result.now ≡ spec.after_value value.now values.now }
{
    match values {
        [first, others @ ..] if compare(first, value).is_eq() => others,
        _ => values,
    }
}

/// Adds the values at the front that are below `value`.
fn push_below(
    alloc: Global,
    all: &mut Values,
    values: &[Value],
    value: &Value,
) -> Result<(), AllocError>
    ensures { OnOk result (all.new ≡ all.old ++ spec.below value.now values.now) }
{
    for other in values {
        if compare(other, value) != Ordering::Less {
            return Ok(());
        }
        push_copy(alloc, all, other)?;
    }
    Ok(())
}

/// The values of two ascending lists, each once, in time linear in their lengths.
pub(crate) fn merged(alloc: Global, a: &[Value], b: &[Value]) -> Result<Values, AllocError>
    ensures { IfOk result (λ all. all ≡ spec.merged a.now b.now) }
{
    let mut all = Values::new(alloc);
    let mut rest = b;
    for value in a {
        push_below(alloc, &mut all, rest, value)?;
        rest = after_value(from_value(rest, value), value);
        push_copy(alloc, &mut all, value)?;
    }
    all.append(values_copied(alloc, rest)?)?;
    Ok(all)
}

/// The values whose key stands in the ascending list `among`, or, where `keep` is false, those
/// whose key doesn't; a value without a key is left out. It takes time linear in the lengths
/// where the keys rise.
pub(crate) fn kept(
    alloc: Global,
    values: &[Value],
    key: Key,
    among: &[Value],
    keep: bool,
) -> Result<Values, AllocError>
    ensures { IfOk result (λ all. all ≡ spec.kept (spec.key_of key) keep values.now among.now) }
{
    let mut all = Values::new(alloc);
    let mut rest = among;
    for value in values {
        if let Some(key) = key_of(key, value) {
            rest = from_value(rest, key);
            if begins_with(rest, key) == keep {
                push_copy(alloc, &mut all, value)?;
            }
        }
    }
    Ok(all)
}
