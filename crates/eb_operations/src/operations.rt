//! The values of operators, by the values of their parts. An argument is to be canonical where a function says so: each set in it,
//! at every depth, is its members in ascending order.
ghost use Rattle.std.specs.Prelude.{◌≡◌, ◌≢◌, IfOk, IfSome, true, option_map, option_and_then, Some, length, map, pos};
ghost use Rattle.std.specs.List.{filter_map};
ghost use Rattle.std.specs.Option.{option_copied};
ghost use Rattle.eb_value.specs.Canonical.{IsCanonical, AreCanonical};
ghost use Rattle.eb_value.specs.Comprehensions as sets;
ghost use Rattle.eb_value.specs.Values as value;
ghost use Rattle.eb_value.specs.Values.{int, is_ascending};
ghost use Rattle.eb_operations.specs.Operations as spec;
ghost use Rattle.eb_operations.specs.Arithmetic as spec_of;
ghost use Rattle.eb_operations.specs.Arithmetic.{int_of as the_int};
ghost use Rattle.eb_syntax.specs.declared.ast.Operator.TheVariants as op;

use crate::arithmetic::{defined_size, difference, power, product, quotient, remainder, sum};
use crate::truth3::Truth3;
use eb_syntax::{Call, Operator};
use eb_term::Side;
use eb_value::{
    Form, Value, Values, apply, canonical_values_have_canonical_parts, compose, cross, direct,
    dom_drop, dom_keep, domain, image, integers, inverse, meet, meet_all, minus,
    operators_keep_values_canonical, overlay, parallel, parts, ran_drop, ran_keep, range, set_of,
    union, union_all,
};
use std::alloc::{AllocError, Global};

/// The integer that a value is.
pub(crate) fn int_of(value: &Value) -> Option<i64>
    ensures { result ≡ the_int value.now }
{
    match &value.form {
        Form::Int(n) => Some(*n),
        _ => None,
    }
}

/// The integer as a value, where there is one.
fn valued(n: Option<i64>) -> Option<Value>
    ensures value { result ≡ option_map value.int n }
    ensures canonical { IfSome result IsCanonical }
{
    match n {
        Some(n) => Some(Value::integer(n)),
        None => None,
    }
}

/// The value of an operator on integers, but of `..`.
fn of_integers(operator: Operator, m: i64, n: i64) -> Option<Value>
    requires { operator ≢ op.UpTo }
    ensures value { result ≡ spec.int_by operator m n }
    ensures canonical { IfSome result IsCanonical }
{
    match operator {
        Operator::Plus => valued(sum(m, n)),
        Operator::Minus => valued(difference(m, n)),
        Operator::Times => valued(product(m, n)),
        Operator::Divide => valued(quotient(m, n)),
        Operator::Modulo => valued(remainder(m, n)),
        Operator::Power => valued(power(m, n)),
        _ => None,
    }
}

/// `m..n`
fn interval(alloc: Global, m: i64, n: i64) -> Result<Value, AllocError>
    ensures value { IfOk result (λ v. v ≡ value.set (spec_of.interval m n)) }
    ensures canonical { IfOk result IsCanonical }
{
    operators_keep_values_canonical();
    Ok(Value::set(integers(alloc, m, n)?))
}

/// The value of an operator on integers.
fn arithmetic(
    alloc: Global,
    operator: Operator,
    left: &Value,
    right: &Value,
) -> Result<Option<Value>, AllocError>
    ensures value { IfOk result (λ v. v ≡ spec.with_ints (spec.int_by operator) left.now right.now) }
    ensures canonical { IfOk result (λ o. IfSome o IsCanonical) }
{
    let (Some(m), Some(n)) = (int_of(left), int_of(right)) else {
        return Ok(None);
    };
    match operator {
        Operator::UpTo => Ok(Some(interval(alloc, m, n)?)),
        _ => Ok(of_integers(operator, m, n)),
    }
}

/// The members of what an operator on sets gives.
fn of_sets(
    alloc: Global,
    operator: Operator,
    s: &Values,
    t: &Values,
) -> Result<Option<Values>, AllocError>
    requires first { IsCanonical (value.set s.now) }
    requires second { IsCanonical (value.set t.now) }
    ensures members { IfOk result (λ o. o ≡ spec.set_by operator s.now t.now) }
    ensures canonical { IfOk result (λ o. IfSome o (λ xs. IsCanonical (value.set xs))) }
{
    canonical_values_have_canonical_parts();
    operators_keep_values_canonical();
    match operator {
        Operator::Union => Ok(Some(union(alloc, s, t)?)),
        Operator::Intersection => Ok(Some(meet(alloc, s, t)?)),
        Operator::Difference => Ok(Some(minus(alloc, s, t)?)),
        Operator::Product => Ok(Some(cross(alloc, s, t)?)),
        Operator::ForwardComposition => Ok(Some(compose(alloc, s, t)?)),
        Operator::BackwardComposition => Ok(Some(compose(alloc, t, s)?)),
        Operator::DomainRestriction => Ok(Some(dom_keep(alloc, s, t)?)),
        Operator::DomainSubtraction => Ok(Some(dom_drop(alloc, s, t)?)),
        Operator::RangeRestriction => Ok(Some(ran_keep(alloc, s, t)?)),
        Operator::RangeSubtraction => Ok(Some(ran_drop(alloc, s, t)?)),
        Operator::Override => Ok(Some(overlay(alloc, s, t)?)),
        Operator::DirectProduct => Ok(Some(direct(alloc, s, t)?)),
        Operator::ParallelProduct => Ok(Some(parallel(alloc, s, t)?)),
        Operator::Image => Ok(Some(image(alloc, s, t)?)),
        _ => Ok(None),
    }
}

/// The value of an operator on sets.
fn set_operation(
    alloc: Global,
    operator: Operator,
    left: &Value,
    right: &Value,
) -> Result<Option<Value>, AllocError>
    requires left { IsCanonical left.now }
    requires right { IsCanonical right.now }
    ensures value { IfOk result (λ v. v ≡ spec.with_sets (λ s t. option_map value.set (spec.set_by operator s t)) left.now right.now) }
    ensures canonical { IfOk result (λ o. IfSome o IsCanonical) }
{
    let (Form::Set(s), Form::Set(t)) = (&left.form, &right.form) else {
        return Ok(None);
    };
    match of_sets(alloc, operator, s, t)? {
        Some(members) => Ok(Some(Value::set(members))),
        None => Ok(None),
    }
}

/// `x |-> y`
fn maplet(alloc: Global, first: &Value, second: &Value) -> Result<Option<Value>, AllocError>
    requires first { IsCanonical first.now }
    requires second { IsCanonical second.now }
    ensures value { IfOk result (λ v. v ≡ Some (value.pair first.now second.now)) }
    ensures canonical { IfOk result (λ o. IfSome o IsCanonical) }
{
    let first = first.copied(alloc)?;
    let second = second.copied(alloc)?;
    Ok(Some(Value::pair(alloc, first, second)?))
}

/// `f(x)`
fn applied(alloc: Global, relation: &Value, argument: &Value) -> Result<Option<Value>, AllocError>
    requires relation { IsCanonical relation.now }
    ensures value { IfOk result (λ v. v ≡ spec.with_set (λ f. sets.apply f argument.now) relation.now) }
    ensures canonical { IfOk result (λ o. IfSome o IsCanonical) }
{
    canonical_values_have_canonical_parts();
    operators_keep_values_canonical();
    let Form::Set(pairs) = &relation.form else {
        return Ok(None);
    };
    match apply(pairs, argument) {
        Some(value) => Ok(Some(value.copied(alloc)?)),
        None => Ok(None),
    }
}

fn is_arithmetic(operator: Operator) -> bool
    ensures { result ≡ spec.is_arithmetic operator }
{
    matches!(
        operator,
        Operator::Plus
            | Operator::Minus
            | Operator::Times
            | Operator::Divide
            | Operator::Modulo
            | Operator::Power
            | Operator::UpTo
    )
}

/// The value of an operator on two expressions, by their values. The only error is want of memory.
pub fn operation(
    alloc: Global,
    operator: Operator,
    left: &Value,
    right: &Value,
) -> Result<Option<Value>, AllocError>
    requires left { IsCanonical left.now }
    requires right { IsCanonical right.now }
    ensures value { IfOk result (λ v. v ≡ spec.value_by operator left.now right.now) }
    ensures canonical { IfOk result (λ o. IfSome o IsCanonical) }
{
    match operator {
        Operator::MapsTo => maplet(alloc, left, right),
        Operator::Apply => applied(alloc, left, right),
        _ if is_arithmetic(operator) => arithmetic(alloc, operator, left, right),
        _ => set_operation(alloc, operator, left, right),
    }
}

/// The value of a call on a set, by its members. The only error is want of memory.
fn called(alloc: Global, call: Call, s: &Values) -> Result<Option<Value>, AllocError>
    requires { IsCanonical (value.set s.now) }
    ensures value { IfOk result (λ v. v ≡ spec.call_by call s.now) }
    ensures canonical { IfOk result (λ o. IfSome o IsCanonical) }
{
    canonical_values_have_canonical_parts();
    operators_keep_values_canonical();
    match call {
        Call::Cardinality => Ok(size(s)),
        Call::Minimum => least(alloc, s),
        Call::Maximum => greatest(alloc, s),
        Call::Domain => Ok(Some(Value::set(domain(alloc, s)?))),
        Call::Range => Ok(Some(Value::set(range(alloc, s)?))),
        Call::GeneralizedUnion => Ok(Some(Value::set(union_all(alloc, s.as_slice())?))),
        Call::GeneralizedIntersection => match meet_all(alloc, s.as_slice())? {
            Some(members) => Ok(Some(Value::set(members))),
            None => Ok(None),
        },
        _ => Ok(None),
    }
}

/// `card`
fn size(s: &Values) -> Option<Value>
    ensures value { result ≡ spec_of.defined_int (pos (length s.now)) }
    ensures canonical { IfSome result IsCanonical }
{
    valued(defined_size(s.len()))
}

/// The least member, which stands first, a copy.
fn least(alloc: Global, s: &Values) -> Result<Option<Value>, AllocError>
    requires { AreCanonical s.now }
    ensures value { IfOk result (λ o. o ≡ sets.first_of s.now) }
    ensures canonical { IfOk result (λ o. IfSome o IsCanonical) }
{
    match s.as_slice().first() {
        Some(value) => Ok(Some(value.copied(alloc)?)),
        None => Ok(None),
    }
}

/// The greatest member, which stands last, a copy.
fn greatest(alloc: Global, s: &Values) -> Result<Option<Value>, AllocError>
    requires { AreCanonical s.now }
    ensures value { IfOk result (λ o. o ≡ spec.last_of s.now) }
    ensures canonical { IfOk result (λ o. IfSome o IsCanonical) }
{
    match s.as_slice().last() {
        Some(value) => Ok(Some(value.copied(alloc)?)),
        None => Ok(None),
    }
}

/// The converse of a relation.
pub fn converse(alloc: Global, relation: &Value) -> Result<Option<Value>, AllocError>
    requires { IsCanonical relation.now }
    ensures value { IfOk result (λ v. v ≡ spec.with_set (λ r. Some (value.set (sets.inverse r))) relation.now) }
    ensures canonical { IfOk result (λ o. IfSome o IsCanonical) }
{
    canonical_values_have_canonical_parts();
    operators_keep_values_canonical();
    match &relation.form {
        Form::Set(pairs) => Ok(Some(Value::set(inverse(alloc, pairs)?))),
        _ => Ok(None),
    }
}

/// A part of a pair.
fn part_of(side: Side, value: &Value) -> Option<&Value>
    requires { IsCanonical value.now }
    ensures value { option_copied result ≡ spec.part_of side value.now }
    ensures canonical { IfSome result (λ v. IsCanonical v.now) }
{
    canonical_values_have_canonical_parts();
    match (&value.form, side) {
        (Form::Pair(first, _), Side::First) => Some(first.get()),
        (Form::Pair(_, second), Side::Second) => Some(second.get()),
        _ => None,
    }
}

/// A part of the part, and so on.
pub fn part_at<'a>(path: &[Side], value: &'a Value) -> Option<&'a Value>
    requires { IsCanonical value.now }
    ensures value { option_copied result ≡ spec.part_at path.now value.now }
    ensures canonical { IfSome result (λ v. IsCanonical v.now) }
{
    let mut part = value;
    let mut rest = path;
    while let [side, others @ ..] = rest {
        part = part_of(*side, part)?;
        rest = others;
    }
    Some(part)
}

/// A part of a pair, a copy. The only error is want of memory.
pub fn part_copied(alloc: Global, side: Side, pair: &Value) -> Result<Option<Value>, AllocError>
    requires { IsCanonical pair.now }
    ensures value { IfOk result (λ o. o ≡ spec.part_of side pair.now) }
    ensures canonical { IfOk result (λ o. IfSome o IsCanonical) }
{
    match part_of(side, pair) {
        Some(part) => Ok(Some(part.copied(alloc)?)),
        None => Ok(None),
    }
}

/// `-a`
pub fn negated(value: &Value) -> Option<Value>
    ensures value { result ≡ spec.with_ints (spec.int_by op.Minus) (int (pos 0)) value.now }
    ensures canonical { IfSome result IsCanonical }
{
    match int_of(value) {
        Some(n) => valued(difference(0, n)),
        None => None,
    }
}

/// The value of a call on an expression. The only error is want of memory.
pub fn called_on(alloc: Global, call: Call, set: &Value) -> Result<Option<Value>, AllocError>
    requires { IsCanonical set.now }
    ensures value { IfOk result (λ v. v ≡ spec.with_set (spec.call_by call) set.now) }
    ensures canonical { IfOk result (λ o. IfSome o IsCanonical) }
{
    match &set.form {
        Form::Set(members) => called(alloc, call, members),
        _ => Ok(None),
    }
}

/// `bool(P)`
pub fn bool_of(truth: Truth3) -> Option<Value>
    ensures value { result ≡ spec.bool_of truth }
    ensures canonical { IfSome result IsCanonical }
{
    match truth {
        Truth3::True => Some(Value::truth(true)),
        Truth3::False => Some(Value::truth(false)),
        Truth3::Undefined => None,
    }
}

/// The empty set.
pub fn empty_set(alloc: Global) -> Value
    ensures value { result ≡ spec.empty_set }
    ensures canonical { IsCanonical result }
{
    Value::set(Values::new(alloc))
}

/// The set of the values in a list.
pub fn set_with(values: Vec<Value>) -> Value
    requires { AreCanonical values.items }
    ensures value { result ≡ value.set (sets.set_of values.items) }
    ensures canonical { IsCanonical result }
{
    operators_keep_values_canonical();
    Value::set(set_of(values))
}

/// The union of the sets. The only error is want of memory.
pub fn union_of(alloc: Global, parts: &[Value]) -> Result<Value, AllocError>
    requires { AreCanonical parts.now }
    ensures value { IfOk result (λ v. v ≡ value.set (sets.union_of (map sets.members parts.now))) }
    ensures canonical { IfOk result IsCanonical }
{
    operators_keep_values_canonical();
    Ok(Value::set(union_all(alloc, parts)?))
}

/// One side of each of the pairs. A value that is no pair counts for nothing. The only error is want of memory.
pub fn sides(alloc: Global, side: Side, values: &[Value]) -> Result<Vec<Value>, AllocError>
    requires { AreCanonical values.now }
    ensures sides { IfOk result (λ vs. vs.items ≡ filter_map (spec.part_of side) values.now) }
    ensures canonical { IfOk result (λ vs. AreCanonical vs.items) }
{
    canonical_values_have_canonical_parts();
    let mut sides = Vec::new(alloc);
    for value in values {
        if let Some(part) = part_of(side, value) {
            sides.push(part.copied(alloc)?)?;
        }
    }
    Ok(sides)
}

/// The domain, or the range, of a relation. The only error is want of memory.
pub fn set_of_side(alloc: Global, side: Side, relation: &Value) -> Result<Values, AllocError>
    requires { IsCanonical relation.now }
    ensures set { IfOk result (λ vs. vs ≡ spec.set_of_side side relation.now) }
    ensures canonical { IfOk result (λ vs. IsCanonical (value.set vs)) }
{
    canonical_values_have_canonical_parts();
    operators_keep_values_canonical();
    match (&relation.form, side) {
        (Form::Set(pairs), Side::First) => domain(alloc, pairs),
        (Form::Set(pairs), Side::Second) => range(alloc, pairs),
        _ => Ok(Values::new(alloc)),
    }
}
