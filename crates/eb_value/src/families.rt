//! The union and the intersection of a family of sets. A value that is no set counts as the empty set.

ghost use Rattle.std.specs.Prelude.{◌≡◌, ◌++◌, true, filter, map, IfOk, OnOk};
ghost use Rattle.std.specs.List.{list_all};
ghost use Rattle.eb_value.specs.Comprehensions as spec;
ghost use Rattle.eb_value.specs.steps.Families as step;
ghost use Rattle.eb_value.specs.Values.{is_ascending};

use crate::lists::Values;
use crate::sets::{contains, set_of};
use crate::value::{Form, Value, members_of, push_copy};
use std::alloc::{AllocError, Global};

/// The union of the sets, by one sort of all their members. The only error is want of memory.
pub fn union_all(alloc: Global, sets: &[Value]) -> Result<Values, AllocError>
    ensures { IfOk result (λ xs. xs ≡ spec.union_of (map spec.members sets.now)) }
{
    let mut all = Vec::new(alloc);
    for each in sets {
        push_copies(alloc, &mut all, members_of(each))?;
    }
    Ok(set_of(all))
}

fn push_copies(alloc: Global, all: &mut Vec<Value>, values: &[Value]) -> Result<(), AllocError>
    ensures { OnOk result (all.new.items ≡ all.old.items ++ values.now) }
{
    for value in values {
        all.push(value.copied(alloc)?)?;
    }
    Ok(())
}

/// The intersection of the sets, and none where there is no set: each member of the first is looked up in
/// the others. The only error is want of memory.
pub fn meet_all(alloc: Global, sets: &[Value]) -> Result<Option<Values>, AllocError>
    requires { list_all (λ v. is_ascending (spec.members v)) sets.now ≡ true }
    ensures { IfOk result (λ o. o ≡ spec.meet_of (map spec.members sets.now)) }
{
    let Some((first, others)) = sets.split_first() else {
        return Ok(None);
    };
    Ok(Some(kept_in_all(alloc, members_of(first), others)?))
}

/// The values that each of the sets has.
fn kept_in_all(alloc: Global, values: &[Value], sets: &[Value]) -> Result<Values, AllocError>
    requires { list_all (λ v. is_ascending (spec.members v)) sets.now ≡ true }
    ensures { IfOk result (λ all. all ≡ filter (step.in_all sets.now) values.now) }
{
    let mut all = Values::new(alloc);
    for value in values {
        if is_in_all(value, sets) {
            push_copy(alloc, &mut all, value)?;
        }
    }
    Ok(all)
}

#[tactic(auto, unfolding(crate::specs::steps::Families::in_all))]
fn is_in_all(value: &Value, sets: &[Value]) -> bool
    requires { list_all (λ v. is_ascending (spec.members v)) sets.now ≡ true }
    ensures { result ≡ step.in_all sets.now value.now }
{
    let mut rest = sets;
    while let [first, others @ ..] = rest {
        if !has_member(first, value) {
            return false;
        }
        rest = others;
    }
    true
}

fn has_member(each: &Value, value: &Value) -> bool
    requires { is_ascending (spec.members each.now) ≡ true }
    ensures { result ≡ spec.has (spec.members each.now) value.now }
{
    match &each.form {
        Form::Set(members) => contains(members, value),
        _ => false,
    }
}
