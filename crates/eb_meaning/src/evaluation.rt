//! The evaluator: the meaning of terms, by their heads.
ghost use Rattle.std.specs.Prelude.{◌≡◌, ◌&&◌, IfOk, IfSome, OnOk, map, option_map, option_and_then, Some, true};
ghost use Rattle.std.specs.List.{filter_map};
ghost use Rattle.eb_value.specs.Canonical.{IsCanonical, AreCanonical};
ghost use Rattle.eb_value.specs.Comprehensions as sets;
ghost use Rattle.eb_value.specs.Values as value;
ghost use Rattle.eb_operations.specs.Truths as truths;
ghost use Rattle.eb_meaning.specs.Meaning as spec;
ghost use Rattle.eb_meaning.specs.steps.Evaluating as step;

use crate::leaves::leaf_at;
use crate::operands::{
    both_given, called_with, compared, converse_of, defined, finite, found_has_each, functional_in,
    is_found, made, negated_of, operation_with, part_of,
};
use crate::setting::{Found, Setting};
use eb_operations::{
    Truth3, are_arrows, are_pairs, bool_of, decided, empty_set, identity, infinite_has_each,
    is_partition, is_power, is_whole, listed, members, projection, set_of_side, set_with, sides,
    union_of,
};
use eb_syntax::{Call, Operator, Prefix};
use eb_term::{Binary, Binder, Head, Many, Side, Term, Unary};
use eb_value::{Scope, Value, Values, canonical_values_have_canonical_parts, values_copied};
use operator_kinds::{is_arrow, is_product};
use std::alloc::{AllocError, Global};

/// The truth of a predicate, Undefined for another term.
#[cycle(evaluation)]
pub(crate) fn truth_at(
    alloc: Global,
    scope: &Scope,
    at: &Setting<'_, '_>,
    term: &Term,
) -> Result<Truth3, AllocError>
    ensures { IfOk result (λ t. t ≡ (spec.meaning scope.now term.now).truth at.now) }
{
    match &term.head {
        Head::Truth(truth) => Ok(Truth3::of(*truth)),
        Head::Unary(operator, part) => unary_truth(alloc, scope, &*at, *operator, part.get()),
        Head::Binary(binary, left, right) => match binary {
            Binary::Operator(operator) => match operator {
                Operator::And | Operator::Or | Operator::Implies | Operator::Equivalent => {
                    let first = truth_at(alloc, scope, &*at, left.get())?;
                    connective(alloc, scope, &*at, *operator, first, right.get())
                }
                Operator::Equal
                | Operator::Unequal
                | Operator::Less
                | Operator::AtMost
                | Operator::Greater
                | Operator::AtLeast
                | Operator::MemberOf
                | Operator::NotMemberOf
                | Operator::SubsetOf
                | Operator::NotSubsetOf
                | Operator::ProperSubsetOf
                | Operator::NotProperSubsetOf => match operand_at(alloc, scope, &*at, left.get())? {
                    Some(left) => relation(alloc, scope, &*at, *operator, right.get(), left.get()),
                    None => Ok(Truth3::Undefined),
                },
                _ => Ok(Truth3::Undefined),
            },
            Binary::Both => {
                let first = truth_at(alloc, scope, &*at, left.get())?;
                Ok(first.both(truth_at(alloc, scope, &*at, right.get())?))
            }
            Binary::If => Ok(Truth3::Undefined),
        },
        Head::Many(Many::Partition, parts) => partition(alloc, scope, &*at, parts.as_slice()),
        Head::Over(binder, range, body) => match operand_at(alloc, scope, &*at, range.get())? {
            Some(set) => quantified(alloc, scope, &*at, *binder, body.get(), members(set.get())),
            None => Ok(Truth3::Undefined),
        },
        Head::All(binder, ty, body) => {
            let range = listed(alloc, scope, ty.get())?;
            quantified(alloc, scope, &*at, *binder, body.get(), range.as_slice())
        }
        Head::Literal(_, _)
        | Head::Reference(_, _)
        | Head::Variable(_, _, _)
        | Head::Infinite(_)
        | Head::Identity(_)
        | Head::Projection(_, _, _)
        | Head::Many(Many::Extension, _) => Ok(Truth3::Undefined),
    }
}

#[cycle(evaluation)]
fn unary_truth(
    alloc: Global,
    scope: &Scope,
    at: &Setting<'_, '_>,
    operator: Unary,
    part: &Term,
) -> Result<Truth3, AllocError>
    ensures { IfOk result (λ t. t ≡ (spec.by_unary operator (spec.meaning scope.now part.now)).truth at.now) }
{
    match operator {
        Unary::Prefix(Prefix::Not) => Ok(truth_at(alloc, scope, &*at, part)?.negation()),
        Unary::Call(Call::Finite) => Ok(finite(operand_at(alloc, scope, &*at, &*part)?)),
        Unary::Defined => Ok(defined(operand_at(alloc, scope, &*at, &*part)?)),
        Unary::Functional => Ok(functional_in(operand_at(alloc, scope, &*at, &*part)?)),
        Unary::Prefix(Prefix::Minus)
        | Unary::Call(
            Call::PowerSet
            | Call::NonemptyPowerSet
            | Call::Cardinality
            | Call::Minimum
            | Call::Maximum
            | Call::Domain
            | Call::Range
            | Call::GeneralizedUnion
            | Call::GeneralizedIntersection
            | Call::BoolOf,
        )
        | Unary::Inverse
        | Unary::Part(_) => Ok(Truth3::Undefined),
    }
}

/// A connective behind its left side, from left to right: the right side is looked at only where the left one leaves it open.
#[cycle(evaluation)]
fn connective(
    alloc: Global,
    scope: &Scope,
    at: &Setting<'_, '_>,
    operator: Operator,
    left: Truth3,
    right: &Term,
) -> Result<Truth3, AllocError>
    ensures { IfOk result (λ t. t ≡ truths.connective operator left ((spec.meaning scope.now right.now).truth at.now)) }
{
    match decided(operator, left) {
        Some(truth) => Ok(truth),
        None => Ok(eb_operations::connective(operator, left, truth_at(alloc, scope, &*at, right)?)),
    }
}

/// A relation behind the value of its left side.
#[cycle(evaluation)]
fn relation(
    alloc: Global,
    scope: &Scope,
    at: &Setting<'_, '_>,
    operator: Operator,
    right: &Term,
    left: &Value,
) -> Result<Truth3, AllocError>
    requires { IsCanonical left.now }
    ensures { IfOk result (λ t. t ≡ step.relation operator at.now left.now (spec.meaning scope.now right.now)) }
{
    match operator {
        Operator::MemberOf => has(alloc, scope, &*at, right, std::slice::from_ref(left)),
        Operator::NotMemberOf => {
            Ok(has(alloc, scope, &*at, right, std::slice::from_ref(left))?.negation())
        }
        Operator::SubsetOf => has(alloc, scope, &*at, right, members(left)),
        Operator::NotSubsetOf => Ok(has(alloc, scope, &*at, right, members(left))?.negation()),
        Operator::ProperSubsetOf => proper_subset(alloc, scope, &*at, right, left),
        Operator::NotProperSubsetOf => {
            Ok(proper_subset(alloc, scope, &*at, right, left)?.negation())
        }
        _ => Ok(compared(operator, left, operand_at(alloc, scope, &*at, &*right)?)),
    }
}

/// Whether what stands to the right of a membership has each of the values, Undefined where it isn't given.
#[cycle(evaluation)]
fn has(
    alloc: Global,
    scope: &Scope,
    at: &Setting<'_, '_>,
    form: &Term,
    range: &[Value],
) -> Result<Truth3, AllocError>
    requires { AreCanonical range.now }
    ensures { IfOk result (λ t. t ≡ truths.tested (step.has_all (spec.meaning scope.now form.now) at.now range.now)) }
{
    Ok(Truth3::tested(all_at(alloc, scope, &*at, form, range)?))
}

/// `e <<: F`, by the value of e.
#[cycle(evaluation)]
fn proper_subset(
    alloc: Global,
    scope: &Scope,
    at: &Setting<'_, '_>,
    form: &Term,
    set: &Value,
) -> Result<Truth3, AllocError>
    requires { IsCanonical set.now }
    ensures { IfOk result (λ t. t ≡ step.proper_subset at.now set.now (spec.meaning scope.now form.now)) }
{
    match all_at(alloc, scope, &*at, form, members(set))? {
        Some(true) => Ok(Truth3::of(!is_all_at(alloc, scope, &*at, form, set)?)),
        Some(false) => Ok(Truth3::False),
        None => Ok(Truth3::Undefined),
    }
}

/// Whether a value is that of an expression.
#[cycle(evaluation)]
fn is_all_at(
    alloc: Global,
    scope: &Scope,
    at: &Setting<'_, '_>,
    form: &Term,
    set: &Value,
) -> Result<bool, AllocError>
    ensures { IfOk result (λ b. b ≡ spec.is_value_of ((spec.meaning scope.now form.now).value at.now) set.now) }
{
    Ok(is_found(set, operand_at(alloc, scope, &*at, &*form)?))
}

#[cycle(evaluation)]
fn partition(
    alloc: Global,
    scope: &Scope,
    at: &Setting<'_, '_>,
    parts: &[Term],
) -> Result<Truth3, AllocError>
    ensures { IfOk result (λ t. t ≡ truths.tested (option_map spec.is_partition (spec.all_values (map (λ m. m.value at.now) (map (spec.meaning scope.now) parts.now))))) }
{
    match values_at(alloc, scope, &*at, parts)? {
        Some(values) => Ok(Truth3::of(is_partition(alloc, values.as_slice())?)),
        None => Ok(Truth3::Undefined),
    }
}

/// A quantifier over these values.
#[cycle(evaluation)]
fn quantified(
    alloc: Global,
    scope: &Scope,
    at: &Setting<'_, '_>,
    binder: Binder,
    body: &Term,
    range: &[Value],
) -> Result<Truth3, AllocError>
    requires { AreCanonical range.now }
    ensures { IfOk result (λ t. t ≡ (spec.by_binder binder (λ env. Some range.now) (spec.meaning scope.now body.now)).truth at.now) }
{
    match binder {
        Binder::ForAll => for_all_at(alloc, scope, &*at, body, range),
        Binder::Exists => exists_at(alloc, scope, &*at, body, range),
        Binder::Collect => Ok(Truth3::Undefined),
    }
}

#[cycle(evaluation)]
fn for_all_at(
    alloc: Global,
    scope: &Scope,
    at: &Setting<'_, '_>,
    body: &Term,
    range: &[Value],
) -> Result<Truth3, AllocError>
    requires { AreCanonical range.now }
    ensures { IfOk result (λ t. t ≡ truths.for_all (map (λ v. (spec.meaning scope.now body.now).truth (spec.inside at.now v)) range.now)) }
{
    let mut bound = values_copied(alloc, at.bound())?;
    let mut all = Truth3::True;
    for value in range {
        let instance = truth_inside(alloc, scope, &*at, body, &mut bound, value)?;
        all = all.both(instance);
    }
    Ok(all)
}

#[cycle(evaluation)]
fn exists_at(
    alloc: Global,
    scope: &Scope,
    at: &Setting<'_, '_>,
    body: &Term,
    range: &[Value],
) -> Result<Truth3, AllocError>
    requires { AreCanonical range.now }
    ensures { IfOk result (λ t. t ≡ truths.exists (map (λ v. (spec.meaning scope.now body.now).truth (spec.inside at.now v)) range.now)) }
{
    let mut bound = values_copied(alloc, at.bound())?;
    let mut any = Truth3::False;
    for value in range {
        let instance = truth_inside(alloc, scope, &*at, body, &mut bound, value)?;
        any = any.either(instance);
    }
    Ok(any)
}

/// The truth of an instance. The values of the enclosing binders are lent to be made longer, and come back as they were.
#[cycle(evaluation)]
fn truth_inside(
    alloc: Global,
    scope: &Scope,
    at: &Setting<'_, '_>,
    body: &Term,
    bound: &mut Values,
    value: &Value,
) -> Result<Truth3, AllocError>
    requires bound { bound.old ≡ at.now.bound }
    requires canonical { AreCanonical bound.old }
    requires value { IsCanonical value.now }
    ensures truth { IfOk result (λ t. t ≡ (spec.meaning scope.now body.now).truth (spec.inside at.now value.now)) }
    ensures bound { OnOk result (bound.new ≡ bound.old) }
{
    bound.push(value.copied(alloc)?)?;
    let inside = at.inside(bound.as_slice());
    let truth = truth_at(alloc, scope, &inside, body)?;
    bound.pop();
    Ok(truth)
}

/// Whether what stands to the right of a membership has each of the values, none where it isn't given.
#[cycle(evaluation)]
fn all_at(
    alloc: Global,
    scope: &Scope,
    at: &Setting<'_, '_>,
    form: &Term,
    range: &[Value],
) -> Result<Option<bool>, AllocError>
    requires { AreCanonical range.now }
    ensures { IfOk result (λ o. o ≡ step.has_all (spec.meaning scope.now form.now) at.now range.now) }
{
    match &form.head {
        Head::Infinite(set) => Ok(Some(infinite_has_each(*set, range))),
        Head::Unary(Unary::Call(Call::PowerSet), part) => {
            powers_at(alloc, scope, &*at, false, part.get(), range)
        }
        Head::Unary(Unary::Call(Call::NonemptyPowerSet), part) => {
            powers_at(alloc, scope, &*at, true, part.get(), range)
        }
        Head::Binary(binary, first, second) => match binary {
            Binary::Operator(operator) => {
                if is_product(*operator) {
                    let first = side_at(alloc, scope, &*at, Side::First, first.get(), range)?;
                    let second = side_at(alloc, scope, &*at, Side::Second, second.get(), range)?;
                    Ok(both_given(first, second, are_pairs(range)))
                } else if is_arrow(*operator) {
                    let first = side_covered(
                        alloc,
                        scope,
                        &*at,
                        *operator,
                        Side::First,
                        first.get(),
                        range,
                    )?;
                    let second = side_covered(
                        alloc,
                        scope,
                        &*at,
                        *operator,
                        Side::Second,
                        second.get(),
                        range,
                    )?;
                    Ok(both_given(first, second, are_arrows(alloc, *operator, range)?))
                } else {
                    value_has_all(alloc, scope, &*at, form, range)
                }
            }
            Binary::Both | Binary::If => value_has_all(alloc, scope, &*at, form, range),
        },
        _ => value_has_all(alloc, scope, &*at, form, range),
    }
}

/// The same of a term that is no form: an expression has the members of its value.
#[cycle(evaluation)]
fn value_has_all(
    alloc: Global,
    scope: &Scope,
    at: &Setting<'_, '_>,
    term: &Term,
    range: &[Value],
) -> Result<Option<bool>, AllocError>
    requires { step.IsPlain (spec.meaning scope.now term.now) }
    ensures { IfOk result (λ o. o ≡ step.has_all (spec.meaning scope.now term.now) at.now range.now) }
{
    Ok(found_has_each(operand_at(alloc, scope, &*at, &*term)?, range))
}

/// The same of `POW(F)`, and of `POW1(F)` where the empty set is no member.
#[cycle(evaluation)]
fn powers_at(
    alloc: Global,
    scope: &Scope,
    at: &Setting<'_, '_>,
    without_empty: bool,
    part: &Term,
    range: &[Value],
) -> Result<Option<bool>, AllocError>
    requires { AreCanonical range.now }
    ensures { IfOk result (λ o. o ≡ step.powers_have_all without_empty (spec.meaning scope.now part.now) at.now range.now) }
{
    let Some(_) = all_at(alloc, scope, &*at, part, &[])? else {
        return Ok(None);
    };
    for value in range {
        if !is_power(without_empty, value) {
            return Ok(Some(false));
        }
        if all_at(alloc, scope, &*at, part, members(value))? != Some(true) {
            return Ok(Some(false));
        }
    }
    Ok(Some(true))
}

/// The same of one side of the pairs.
#[cycle(evaluation)]
fn side_at(
    alloc: Global,
    scope: &Scope,
    at: &Setting<'_, '_>,
    side: Side,
    form: &Term,
    range: &[Value],
) -> Result<Option<bool>, AllocError>
    requires { AreCanonical range.now }
    ensures { IfOk result (λ o. o ≡ step.has_all (spec.meaning scope.now form.now) at.now (filter_map (spec.part_of side) range.now)) }
{
    let parts = sides(alloc, side, range)?;
    all_at(alloc, scope, &*at, form, parts.as_slice())
}

/// Whether the domain, or the range, of each of the relations is within what stands to the right of a membership, and all of it
/// where the arrow asks that; none where it isn't given.
#[cycle(evaluation)]
fn side_covered(
    alloc: Global,
    scope: &Scope,
    at: &Setting<'_, '_>,
    arrow: Operator,
    side: Side,
    form: &Term,
    range: &[Value],
) -> Result<Option<bool>, AllocError>
    requires { AreCanonical range.now }
    ensures { IfOk result (λ o. o ≡ step.side_covered arrow side (spec.meaning scope.now form.now) at.now range.now) }
{
    let Some(_) = all_at(alloc, scope, &*at, form, &[])? else {
        return Ok(None);
    };
    for relation in range {
        let set = set_of_side(alloc, side, relation)?;
        if !covers(alloc, scope, &*at, is_whole(side, arrow), form, set)? {
            return Ok(Some(false));
        }
    }
    Ok(Some(true))
}

#[cycle(evaluation)]
fn covers(
    alloc: Global,
    scope: &Scope,
    at: &Setting<'_, '_>,
    whole: bool,
    form: &Term,
    set: Values,
) -> Result<bool, AllocError>
    requires set { IsCanonical (value.set set) }
    requires form { (spec.meaning scope.now form.now).is_given at.now ≡ true }
    ensures { IfOk result (λ b. b ≡ spec.covers whole at.now (spec.meaning scope.now form.now) set) }
{
    canonical_values_have_canonical_parts();
    if whole {
        let set = Value::set(set);
        return is_all_at(alloc, scope, &*at, form, &set);
    }
    Ok(all_at(alloc, scope, &*at, form, set.as_slice())? == Some(true))
}

/// The value of an expression, lent where it stands.
#[cycle(evaluation)]
pub(crate) fn operand_at<'a>(
    alloc: Global,
    scope: &Scope,
    at: &'a Setting<'_, '_>,
    term: &'a Term,
) -> Result<Option<Found<'a>>, AllocError>
    ensures { IfOk result (λ v. v ≡ (spec.meaning scope.now term.now).value at.now) }
{
    match &term.head {
        Head::Literal(_, _) | Head::Reference(_, _) | Head::Variable(_, _, _) => {
            Ok(leaf_at(&*at, &*term))
        }
        _ => Ok(made(value_at(alloc, scope, &*at, term)?)),
    }
}

/// The value of an expression.
#[cycle(evaluation)]
pub(crate) fn value_at(
    alloc: Global,
    scope: &Scope,
    at: &Setting<'_, '_>,
    term: &Term,
) -> Result<Option<Value>, AllocError>
    ensures value { IfOk result (λ v. v ≡ (spec.meaning scope.now term.now).value at.now) }
    ensures canonical { IfOk result (λ o. IfSome o IsCanonical) }
{
    match &term.head {
        Head::Literal(_, _) | Head::Reference(_, _) | Head::Variable(_, _, _) => {
            match leaf_at(&*at, &*term) {
                Some(found) => Ok(Some(found.into_value(alloc)?)),
                None => Ok(None),
            }
        }
        Head::Identity(ty) => Ok(Some(identity(alloc, scope, ty.get())?)),
        Head::Projection(side, first, second) => {
            Ok(Some(projection(alloc, scope, *side, first.get(), second.get())?))
        }
        Head::Unary(operator, part) => unary_value(alloc, scope, &*at, *operator, part.get()),
        Head::Binary(binary, left, right) => match binary {
            Binary::Operator(operator) => match operand_at(alloc, scope, &*at, left.get())? {
                Some(left) => operator_value(
                    alloc,
                    scope,
                    &*at,
                    *operator,
                    right.get(),
                    left.get(),
                ),
                None => Ok(None),
            },
            Binary::If => match truth_at(alloc, scope, &*at, left.get())? {
                Truth3::True => value_at(alloc, scope, &*at, right.get()),
                Truth3::False => Ok(Some(empty_set(alloc))),
                Truth3::Undefined => Ok(None),
            },
            Binary::Both => Ok(None),
        },
        Head::Many(Many::Extension, parts) => extension(alloc, scope, &*at, parts.as_slice()),
        Head::Over(binder, range, body) => match binder {
            Binder::Collect => match operand_at(alloc, scope, &*at, range.get())? {
                Some(set) => collected_at(alloc, scope, &*at, body.get(), members(set.get())),
                None => Ok(None),
            },
            Binder::ForAll | Binder::Exists => Ok(None),
        },
        Head::All(binder, ty, body) => match binder {
            Binder::Collect => {
                let range = listed(alloc, scope, ty.get())?;
                collected_at(alloc, scope, &*at, body.get(), range.as_slice())
            }
            Binder::ForAll | Binder::Exists => Ok(None),
        },
        Head::Truth(_) | Head::Infinite(_) | Head::Many(Many::Partition, _) => Ok(None),
    }
}

#[cycle(evaluation)]
fn unary_value(
    alloc: Global,
    scope: &Scope,
    at: &Setting<'_, '_>,
    operator: Unary,
    part: &Term,
) -> Result<Option<Value>, AllocError>
    ensures value { IfOk result (λ v. v ≡ (spec.by_unary operator (spec.meaning scope.now part.now)).value at.now) }
    ensures canonical { IfOk result (λ o. IfSome o IsCanonical) }
{
    match operator {
        Unary::Call(call) => call_value(alloc, scope, &*at, call, part),
        Unary::Prefix(Prefix::Minus) => { Ok(negated_of(operand_at(alloc, scope, &*at, &*part)?)) }
        Unary::Inverse => converse_of(alloc, operand_at(alloc, scope, &*at, &*part)?),
        Unary::Part(side) => part_of(alloc, side, operand_at(alloc, scope, &*at, &*part)?),
        Unary::Prefix(Prefix::Not) | Unary::Defined | Unary::Functional => Ok(None),
    }
}

#[cycle(evaluation)]
fn call_value(
    alloc: Global,
    scope: &Scope,
    at: &Setting<'_, '_>,
    call: Call,
    part: &Term,
) -> Result<Option<Value>, AllocError>
    ensures value { IfOk result (λ v. v ≡ (spec.by_call call (spec.meaning scope.now part.now)).value at.now) }
    ensures canonical { IfOk result (λ o. IfSome o IsCanonical) }
{
    match call {
        Call::BoolOf => Ok(bool_of(truth_at(alloc, scope, &*at, part)?)),
        Call::PowerSet | Call::NonemptyPowerSet | Call::Finite => Ok(None),
        Call::Cardinality
        | Call::Minimum
        | Call::Maximum
        | Call::Domain
        | Call::Range
        | Call::GeneralizedUnion
        | Call::GeneralizedIntersection => {
            called_with(alloc, call, operand_at(alloc, scope, &*at, &*part)?)
        }
    }
}

/// The value of an operator behind that of its left side.
#[cycle(evaluation)]
fn operator_value(
    alloc: Global,
    scope: &Scope,
    at: &Setting<'_, '_>,
    operator: Operator,
    right: &Term,
    left: &Value,
) -> Result<Option<Value>, AllocError>
    requires { IsCanonical left.now }
    ensures value { IfOk result (λ v. v ≡ option_and_then (spec.value_by operator left.now) ((spec.meaning scope.now right.now).value at.now)) }
    ensures canonical { IfOk result (λ o. IfSome o IsCanonical) }
{
    operation_with(
        alloc,
        operator,
        left,
        operand_at(alloc, scope, &*at, &*right)?,
    )
}

/// `{E, ..}`
#[cycle(evaluation)]
fn extension(
    alloc: Global,
    scope: &Scope,
    at: &Setting<'_, '_>,
    parts: &[Term],
) -> Result<Option<Value>, AllocError>
    ensures value { IfOk result (λ v. v ≡ option_map (λ vs. value.set (sets.set_of vs)) (spec.all_values (map (λ m. m.value at.now) (map (spec.meaning scope.now) parts.now)))) }
    ensures canonical { IfOk result (λ o. IfSome o IsCanonical) }
{
    match values_at(alloc, scope, &*at, parts)? {
        Some(values) => Ok(Some(set_with(values))),
        None => Ok(None),
    }
}

/// The values of all, where each has one.
#[cycle(evaluation)]
fn values_at(
    alloc: Global,
    scope: &Scope,
    at: &Setting<'_, '_>,
    parts: &[Term],
) -> Result<Option<Vec<Value>>, AllocError>
    ensures values { IfOk result (λ o. option_map (λ vs. vs.items) o ≡ spec.all_values (map (λ m. m.value at.now) (map (spec.meaning scope.now) parts.now))) }
    ensures canonical { IfOk result (λ o. IfSome o (λ vs. AreCanonical vs.items)) }
{
    let mut values = Vec::new(alloc);
    for part in parts {
        match value_at(alloc, scope, &*at, part)? {
            Some(value) => values.push(value)?,
            None => return Ok(None),
        }
    }
    Ok(Some(values))
}

/// The union of the sets at all values of a range.
#[cycle(evaluation)]
fn collected_at(
    alloc: Global,
    scope: &Scope,
    at: &Setting<'_, '_>,
    body: &Term,
    range: &[Value],
) -> Result<Option<Value>, AllocError>
    requires { AreCanonical range.now }
    ensures value { IfOk result (λ v. v ≡ spec.collected (map (λ v. (spec.meaning scope.now body.now).value (spec.inside at.now v)) range.now)) }
    ensures canonical { IfOk result (λ o. IfSome o IsCanonical) }
{
    match instances(alloc, scope, &*at, body, range)? {
        Some(parts) => Ok(Some(union_of(alloc, parts.as_slice())?)),
        None => Ok(None),
    }
}

/// The sets at all values of a range, where each has one.
#[cycle(evaluation)]
fn instances(
    alloc: Global,
    scope: &Scope,
    at: &Setting<'_, '_>,
    body: &Term,
    range: &[Value],
) -> Result<Option<Vec<Value>>, AllocError>
    requires { AreCanonical range.now }
    ensures values { IfOk result (λ o. option_map (λ vs. vs.items) o ≡ spec.all_values (map (λ v. (spec.meaning scope.now body.now).value (spec.inside at.now v)) range.now)) }
    ensures canonical { IfOk result (λ o. IfSome o (λ vs. AreCanonical vs.items)) }
{
    let mut bound = values_copied(alloc, at.bound())?;
    let mut parts = Vec::new(alloc);
    for value in range {
        match value_inside(alloc, scope, &*at, body, &mut bound, value)? {
            Some(part) => parts.push(part)?,
            None => return Ok(None),
        }
    }
    Ok(Some(parts))
}

/// The value of an instance. The values of the enclosing binders are lent to be made longer, and come back as they were.
#[cycle(evaluation)]
fn value_inside(
    alloc: Global,
    scope: &Scope,
    at: &Setting<'_, '_>,
    body: &Term,
    bound: &mut Values,
    value: &Value,
) -> Result<Option<Value>, AllocError>
    requires bound { bound.old ≡ at.now.bound }
    requires canonical { AreCanonical bound.old }
    requires value { IsCanonical value.now }
    ensures value { IfOk result (λ v. v ≡ (spec.meaning scope.now body.now).value (spec.inside at.now value.now)) }
    ensures canonical { IfOk result (λ o. IfSome o IsCanonical) }
    ensures bound { OnOk result (bound.new ≡ bound.old) }
{
    bound.push(value.copied(alloc)?)?;
    let inside = at.inside(bound.as_slice());
    let found = value_at(alloc, scope, &inside, body)?;
    bound.pop();
    Ok(found)
}
