//! What is made of the value that was found for an operand, or of none. No early return is in sight here, so that the functions
//! of the evaluator hold no value that they would have to let go at each of theirs.
ghost use Rattle.std.specs.Prelude.{◌≡◌, IfOk, IfSome, Some, true, option_map, option_and_then, pos};
ghost use Rattle.eb_value.specs.Canonical.{IsCanonical};
ghost use Rattle.eb_value.specs.Comprehensions as sets;
ghost use Rattle.eb_value.specs.Values as value;
ghost use Rattle.eb_syntax.specs.declared.ast.Operator.TheVariants as op;
ghost use Rattle.eb_operations.specs.Truths as truths;
ghost use Rattle.eb_meaning.specs.Meaning as spec;
ghost use Rattle.eb_meaning.specs.steps.Evaluating as step;

use crate::setting::Found;
use eb_operations::{
    Truth3, called_on, converse, functional, has_each, negated, operation, part_copied, same, test,
};
use eb_syntax::{Call, Operator};
use eb_term::Side;
use eb_value::Value;
use std::alloc::{AllocError, Global};

/// A value that was made.
pub(crate) fn made<'a>(value: Option<Value>) -> Option<Found<'a>>
    requires { IfSome value IsCanonical }
    ensures { result ≡ value }
{
    match value {
        Some(value) => Some(Found::owned(value)),
        None => None,
    }
}

/// `finite(S)`
pub(crate) fn finite(set: Option<Found<'_>>) -> Truth3
    ensures { result ≡ truths.tested (option_map (λ v. true) set.entry) }
{
    match set {
        Some(_) => Truth3::True,
        None => Truth3::Undefined,
    }
}

/// Whether there is a value.
pub(crate) fn defined(found: Option<Found<'_>>) -> Truth3
    ensures { result ≡ truths.truth_of (spec.is_value found.entry) }
{
    match found {
        Some(_) => Truth3::True,
        None => Truth3::False,
    }
}

/// Whether a relation relates no value to two.
pub(crate) fn functional_in(relation: Option<Found<'_>>) -> Truth3
    ensures { result ≡ truths.tested (option_and_then (spec.with_set (λ r. Some (sets.is_functional r))) relation.entry) }
{
    match relation {
        Some(relation) => Truth3::tested(functional(relation.get())),
        None => Truth3::Undefined,
    }
}

/// A relation of two values.
pub(crate) fn compared(operator: Operator, left: &Value, right: Option<Found<'_>>) -> Truth3
    ensures { result ≡ truths.tested (option_and_then (spec.test_by operator left.now) right.entry) }
{
    match right {
        Some(right) => Truth3::tested(test(operator, left, right.get())),
        None => Truth3::Undefined,
    }
}

/// Whether the value is the one that was found.
pub(crate) fn is_found(value: &Value, found: Option<Found<'_>>) -> bool
    ensures { result ≡ spec.is_value_of found.entry value.now }
{
    match found {
        Some(found) => same(value, found.get()),
        None => false,
    }
}

/// Whether the set that was found has each of the values.
pub(crate) fn found_has_each(set: Option<Found<'_>>, values: &[Value]) -> Option<bool>
    ensures { result ≡ step.value_has_all set.entry values.now }
{
    match set {
        Some(set) => Some(has_each(set.get(), values)),
        None => None,
    }
}

/// `-a`
pub(crate) fn negated_of(number: Option<Found<'_>>) -> Option<Value>
    ensures value { result ≡ option_and_then (spec.with_ints (spec.int_by op.Minus) (value.int (pos 0))) number.entry }
    ensures canonical { IfSome result IsCanonical }
{
    match number {
        Some(number) => negated(number.get()),
        None => None,
    }
}

/// The converse of a relation. The only error is want of memory.
pub(crate) fn converse_of(
    alloc: Global,
    relation: Option<Found<'_>>,
) -> Result<Option<Value>, AllocError>
    ensures value { IfOk result (λ v. v ≡ option_and_then (spec.with_set (λ r. Some (value.set (sets.inverse r)))) relation.entry) }
    ensures canonical { IfOk result (λ o. IfSome o IsCanonical) }
{
    match relation {
        Some(relation) => converse(alloc, relation.get()),
        None => Ok(None),
    }
}

/// A part of a pair. The only error is want of memory.
pub(crate) fn part_of(
    alloc: Global,
    side: Side,
    pair: Option<Found<'_>>,
) -> Result<Option<Value>, AllocError>
    ensures value { IfOk result (λ v. v ≡ option_and_then (spec.part_of side) pair.entry) }
    ensures canonical { IfOk result (λ o. IfSome o IsCanonical) }
{
    match pair {
        Some(pair) => part_copied(alloc, side, pair.get()),
        None => Ok(None),
    }
}

/// The value of a call. The only error is want of memory.
pub(crate) fn called_with(
    alloc: Global,
    call: Call,
    set: Option<Found<'_>>,
) -> Result<Option<Value>, AllocError>
    ensures value { IfOk result (λ v. v ≡ option_and_then (spec.with_set (spec.call_by call)) set.entry) }
    ensures canonical { IfOk result (λ o. IfSome o IsCanonical) }
{
    match set {
        Some(set) => called_on(alloc, call, set.get()),
        None => Ok(None),
    }
}

/// The value of an operator. The only error is want of memory.
pub(crate) fn operation_with(
    alloc: Global,
    operator: Operator,
    left: &Value,
    right: Option<Found<'_>>,
) -> Result<Option<Value>, AllocError>
    requires { IsCanonical left.now }
    ensures value { IfOk result (λ v. v ≡ option_and_then (spec.value_by operator left.now) right.entry) }
    ensures canonical { IfOk result (λ o. IfSome o IsCanonical) }
{
    match right {
        Some(right) => operation(alloc, operator, left, right.get()),
        None => Ok(None),
    }
}

/// Two tests of what is given, and one besides.
pub(crate) fn both_given(first: Option<bool>, second: Option<bool>, test: bool) -> Option<bool>
    ensures { result ≡ step.both_given first second test }
{
    match (first, second) {
        (Some(first), Some(second)) => Some(test && (first && second)),
        _ => None,
    }
}
