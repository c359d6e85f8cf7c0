//! The tests of values: relations of two, arrows, partitions.
ghost use Rattle.std.specs.Prelude.{◌≡◌, ◌&&◌, IfOk, true, map, not, option_map, Some, int_lt, int_le};
ghost use Rattle.std.specs.List.{list_all};
ghost use Rattle.eb_value.specs.Canonical.{IsCanonical, AreCanonical};
ghost use Rattle.eb_value.specs.Comprehensions as sets;
ghost use Rattle.eb_value.specs.Values as value;
ghost use Rattle.eb_value.specs.Values.{is_ascending};
ghost use Rattle.eb_operations.specs.Operations.{with_ints, with_set};
ghost use Rattle.eb_operations.specs.Tests as spec;
ghost use Rattle.operator_kinds.specs.Operators as kind;

use crate::operations::int_of;
use eb_syntax::Operator;
use eb_term::{Infinite, Side};
use eb_value::{
    Form, Value, Values, canonical_values_have_canonical_parts, compare, contains, inverse,
    is_functional, parts, union_all,
};
use operator_kinds::{is_function, is_injection, is_surjective, is_total};
use std::alloc::{AllocError, Global};

/// Whether two values are one.
pub fn same(left: &Value, right: &Value) -> bool
    ensures { result ≡ sets.same left.now right.now }
{
    compare(left, right).is_eq()
}

/// The test of a relation of two values, none where they don't have the types for it.
pub fn test(operator: Operator, left: &Value, right: &Value) -> Option<bool>
    ensures { result ≡ spec.test_by operator left.now right.now }
{
    match operator {
        Operator::Equal => Some(same(left, right)),
        Operator::Unequal => Some(!same(left, right)),
        Operator::Less => less(left, right),
        Operator::AtMost => at_most(left, right),
        Operator::Greater => less(right, left),
        Operator::AtLeast => at_most(right, left),
        _ => None,
    }
}

fn less(left: &Value, right: &Value) -> Option<bool>
    ensures { result ≡ with_ints (λ m n. Some (int_lt m n)) left.now right.now }
{
    match (int_of(left), int_of(right)) {
        (Some(m), Some(n)) => Some(m < n),
        _ => None,
    }
}

fn at_most(left: &Value, right: &Value) -> Option<bool>
    ensures { result ≡ with_ints (λ m n. Some (int_le m n)) left.now right.now }
{
    match (int_of(left), int_of(right)) {
        (Some(m), Some(n)) => Some(m <= n),
        _ => None,
    }
}

/// Whether `INT`, `NAT` or `NAT1` has each of the values.
pub fn infinite_has_each(set: Infinite, values: &[Value]) -> bool
    ensures { result ≡ list_all (spec.infinite_has set) values.now }
{
    for value in values {
        if !has(set, value) {
            return false;
        }
    }
    true
}

fn has(set: Infinite, value: &Value) -> bool
    ensures { result ≡ spec.infinite_has set value.now }
{
    match (set, int_of(value)) {
        (Infinite::Integers, Some(_)) => true,
        (Infinite::Naturals, Some(n)) => 0 <= n,
        (Infinite::PositiveNaturals, Some(n)) => 1 <= n,
        (_, None) => false,
    }
}

/// The members of a set, and no values of another value.
pub fn members(value: &Value) -> &[Value]
    requires { IsCanonical value.now }
    ensures members { result.now ≡ sets.members value.now }
    ensures ascending { is_ascending result.now ≡ true }
    ensures canonical { AreCanonical result.now }
{
    canonical_values_have_canonical_parts();
    match &value.form {
        Form::Set(members) => members.as_slice(),
        _ => &[],
    }
}

/// Whether a set has each of the values.
pub fn has_each(set: &Value, values: &[Value]) -> bool
    requires { IsCanonical set.now }
    ensures { result ≡ list_all (λ v. sets.has (sets.members set.now) v) values.now }
{
    for value in values {
        if !has_member(set, value) {
            return false;
        }
    }
    true
}

fn has_member(set: &Value, value: &Value) -> bool
    requires { IsCanonical set.now }
    ensures { result ≡ sets.has (sets.members set.now) value.now }
{
    canonical_values_have_canonical_parts();
    match &set.form {
        Form::Set(members) => contains(members, value),
        _ => false,
    }
}

/// Whether each of the values is a pair.
pub fn are_pairs(values: &[Value]) -> bool
    ensures { result ≡ list_all spec.is_pair values.now }
{
    for value in values {
        if parts(value).is_none() {
            return false;
        }
    }
    true
}

/// Whether a relation relates no value to two, none where the value is no set.
pub fn functional(relation: &Value) -> Option<bool>
    requires { IsCanonical relation.now }
    ensures { result ≡ with_set (λ r. Some (sets.is_functional r)) relation.now }
{
    canonical_values_have_canonical_parts();
    match &relation.form {
        Form::Set(pairs) => Some(is_functional(pairs.as_slice())),
        _ => None,
    }
}

/// Whether the first set is the union of the others, of which no two share a member. The only error is want of memory.
pub fn is_partition(alloc: Global, values: &[Value]) -> Result<bool, AllocError>
    requires { AreCanonical values.now }
    ensures { IfOk result (λ b. b ≡ spec.is_partition values.now) }
{
    canonical_values_have_canonical_parts();
    let Some((whole, parts)) = values.split_first() else {
        return Ok(false);
    };
    let union = Value::set(union_all(alloc, parts)?);
    Ok(same(whole, &union) && are_disjoint(parts))
}

/// Whether no two of the sets share a member.
fn are_disjoint(values: &[Value]) -> bool
    requires { AreCanonical values.now }
    ensures { result ≡ spec.are_disjoint (map sets.members values.now) }
{
    let mut rest = values;
    while let [first, others @ ..] = rest {
        if !is_apart(first, others) {
            return false;
        }
        rest = others;
    }
    true
}

/// Whether a set shares no member with any of the others.
fn is_apart(set: &Value, others: &[Value]) -> bool
    requires set { IsCanonical set.now }
    requires others { AreCanonical others.now }
    ensures { result ≡ list_all (λ t. list_all (λ v. not (sets.has t v)) (sets.members set.now)) (map sets.members others.now) }
{
    for other in others {
        if !are_apart(set, other) {
            return false;
        }
    }
    true
}

/// Whether two sets share no member.
fn are_apart(set: &Value, other: &Value) -> bool
    requires set { IsCanonical set.now }
    requires other { IsCanonical other.now }
    ensures { result ≡ list_all (λ v. not (sets.has (sets.members other.now) v)) (sets.members set.now) }
{
    for value in members(set) {
        if has_member(other, value) {
            return false;
        }
    }
    true
}

/// Whether a relation relates no value to two, where the arrow asks it, and no two values to one, where it asks that. The only
/// error is want of memory.
fn is_functional_as(alloc: Global, arrow: Operator, pairs: &Values) -> Result<bool, AllocError>
    requires { is_ascending pairs.now ≡ true }
    ensures { IfOk result (λ b. b ≡ (spec.if_asked (kind.is_function arrow) (sets.is_functional pairs.now)
        && spec.if_asked (kind.is_injection arrow) (sets.is_functional (sets.inverse pairs.now)))) }
{
    if is_function(arrow) && !is_functional(pairs.as_slice()) {
        return Ok(false);
    }
    if is_injection(arrow) {
        let converse = inverse(alloc, pairs)?;
        return Ok(is_functional(converse.as_slice()));
    }
    Ok(true)
}

/// Whether a value is a set, and one with members where the empty set isn't meant.
pub fn is_power(without_empty: bool, value: &Value) -> bool
    ensures { result ≡ spec.is_power without_empty value.now }
{
    match &value.form {
        Form::Set(members) => !without_empty || !members.is_empty(),
        _ => false,
    }
}

/// Whether each of the values is a relation, and functional as the arrow asks. The only error is want of memory.
pub fn are_arrows(alloc: Global, arrow: Operator, values: &[Value]) -> Result<bool, AllocError>
    requires { AreCanonical values.now }
    ensures { IfOk result (λ b. b ≡ list_all (spec.is_arrow_in arrow) values.now) }
{
    for value in values {
        if !is_arrow_in(alloc, arrow, value)? {
            return Ok(false);
        }
    }
    Ok(true)
}

fn is_arrow_in(alloc: Global, arrow: Operator, value: &Value) -> Result<bool, AllocError>
    requires { IsCanonical value.now }
    ensures { IfOk result (λ b. b ≡ spec.is_arrow_in arrow value.now) }
{
    canonical_values_have_canonical_parts();
    match &value.form {
        Form::Set(pairs) if are_pairs(pairs.as_slice()) => is_functional_as(alloc, arrow, pairs),
        _ => Ok(false),
    }
}

/// Whether the domain, or the range, of the relations of an arrow is all of its side.
pub fn is_whole(side: Side, arrow: Operator) -> bool
    ensures { result ≡ spec.is_whole side arrow }
{
    match side {
        Side::First => is_total(arrow),
        Side::Second => is_surjective(arrow),
    }
}
