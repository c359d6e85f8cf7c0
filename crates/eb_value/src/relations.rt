//! Operators on relations, which are sets of pairs. A member that is no pair counts for nothing.

ghost use Rattle.std.specs.Prelude.{◌≡◌, true, filter, IfOk};
ghost use Rattle.std.specs.List.{filter_map};
ghost use Rattle.eb_value.specs.steps.Joins as step;
ghost use Rattle.eb_value.specs.steps.Merges.{second_of};
ghost use Rattle.eb_value.specs.Relations as spec;
ghost use Rattle.eb_value.specs.Sets.{IsSetOf};
ghost use Rattle.eb_value.specs.Comprehensions as set;
ghost use Rattle.eb_value.specs.Values.{is_ascending};

use crate::listing::pair_of;
use crate::lists::Values;
use crate::merges::{Key, kept, merged, second_of};
use crate::sets::{contains, set_of};
use crate::value::{Form, Value};
use std::alloc::{AllocError, Global};

/// s ◁ r: the pairs of r whose first is in s. The only error is want of memory.
pub fn dom_keep(alloc: Global, s: &Values, r: &Values) -> Result<Values, AllocError>
    requires set { is_ascending s.now ≡ true }
    requires relation { is_ascending r.now ≡ true }
    ensures is_set { IfOk result (IsSetOf (spec.InDomKeep s.now r.now)) }
    ensures equals { IfOk result (λ xs. xs ≡ set.dom_keep s.now r.now) }
{
    kept(alloc, r.as_slice(), Key::First, s.as_slice(), true)
}

/// s ⩤ r: the pairs of r whose first isn't in s. The only error is want of memory.
pub fn dom_drop(alloc: Global, s: &Values, r: &Values) -> Result<Values, AllocError>
    requires set { is_ascending s.now ≡ true }
    requires relation { is_ascending r.now ≡ true }
    ensures is_set { IfOk result (IsSetOf (spec.InDomDrop s.now r.now)) }
    ensures equals { IfOk result (λ xs. xs ≡ set.dom_drop s.now r.now) }
{
    kept(alloc, r.as_slice(), Key::First, s.as_slice(), false)
}

/// r ▷ s: the pairs of r whose second is in s. The only error is want of memory.
pub fn ran_keep(alloc: Global, r: &Values, s: &Values) -> Result<Values, AllocError>
    requires relation { is_ascending r.now ≡ true }
    requires set { is_ascending s.now ≡ true }
    ensures is_set { IfOk result (IsSetOf (spec.InRanKeep r.now s.now)) }
    ensures equals { IfOk result (λ xs. xs ≡ set.ran_keep r.now s.now) }
{
    kept_by_second(alloc, r.as_slice(), s, true)
}

/// r ⩥ s: the pairs of r whose second isn't in s. The only error is want of memory.
pub fn ran_drop(alloc: Global, r: &Values, s: &Values) -> Result<Values, AllocError>
    requires relation { is_ascending r.now ≡ true }
    requires set { is_ascending s.now ≡ true }
    ensures is_set { IfOk result (IsSetOf (spec.InRanDrop r.now s.now)) }
    ensures equals { IfOk result (λ xs. xs ≡ set.ran_drop r.now s.now) }
{
    kept_by_second(alloc, r.as_slice(), s, false)
}

/// f overridden by g: the members of g, and the pairs of f whose first isn't the first of a
/// pair of g. The only error is want of memory.
pub fn overlay(alloc: Global, f: &Values, g: &Values) -> Result<Values, AllocError>
    requires under { is_ascending f.now ≡ true }
    requires over { is_ascending g.now ≡ true }
    ensures is_set { IfOk result (IsSetOf (spec.InOverlay f.now g.now)) }
    ensures equals { IfOk result (λ xs. xs ≡ set.overlay f.now g.now) }
{
    let firsts = domain(alloc, g)?;
    let others = dom_drop(alloc, &firsts, f)?;
    merged(alloc, others.as_slice(), g.as_slice())
}

/// dom(r): the firsts of the pairs of r. The only error is want of memory.
pub fn domain(alloc: Global, r: &Values) -> Result<Values, AllocError>
    ensures is_set { IfOk result (IsSetOf (spec.InDomain r.now)) }
    ensures equals { IfOk result (λ xs. xs ≡ set.domain r.now) }
{
    Ok(set_of(parts(alloc, r.as_slice(), Part::First)?))
}

/// ran(r): the seconds of the pairs of r. The only error is want of memory.
pub fn range(alloc: Global, r: &Values) -> Result<Values, AllocError>
    ensures is_set { IfOk result (IsSetOf (spec.InRange r.now)) }
    ensures equals { IfOk result (λ xs. xs ≡ set.range r.now) }
{
    Ok(set_of(parts(alloc, r.as_slice(), Part::Second)?))
}

/// r∼: the pairs of r turned round. The only error is want of memory.
pub fn inverse(alloc: Global, r: &Values) -> Result<Values, AllocError>
    ensures is_set { IfOk result (IsSetOf (spec.InInverse r.now)) }
    ensures equals { IfOk result (λ xs. xs ≡ set.inverse r.now) }
{
    Ok(set_of(parts(alloc, r.as_slice(), Part::Swapped)?))
}

/// r[s]: the seconds of the pairs of r whose first is in s. The only error is want of memory.
pub fn image(alloc: Global, r: &Values, s: &Values) -> Result<Values, AllocError>
    requires relation { is_ascending r.now ≡ true }
    requires set { is_ascending s.now ≡ true }
    ensures is_set { IfOk result (IsSetOf (spec.InImage r.now s.now)) }
    ensures equals { IfOk result (λ xs. xs ≡ set.image r.now s.now) }
{
    let pairs = dom_keep(alloc, s, r)?;
    range(alloc, &pairs)
}

fn kept_by_second(alloc: Global, r: &[Value], s: &Values, keep: bool) -> Result<Values, AllocError>
    requires { is_ascending s.now ≡ true }
    ensures { IfOk result (λ all. all ≡ filter (λ v. step.tests keep s.now (second_of v)) r.now) }
{
    let mut all = Values::new(alloc);
    for value in r {
        if let Some(second) = second_of(value) {
            if contains(s, second) == keep {
                all.push(value.copied(alloc)?)?;
            }
        }
    }
    Ok(all)
}

/// What is taken of a pair.
#[derive(Clone, Copy)]
enum Part {
    First,
    Second,
    Swapped,
}

fn part_of(alloc: Global, part: Part, value: &Value) -> Result<Option<Value>, AllocError>
    ensures { IfOk result (λ o. o ≡ step.part_of part value.now) }
{
    let Form::Pair(first, second) = &value.form else {
        return Ok(None);
    };
    Ok(Some(match part {
        Part::First => first.get().copied(alloc)?,
        Part::Second => second.get().copied(alloc)?,
        Part::Swapped => pair_of(alloc, second.get(), first.get())?,
    }))
}

/// The part of each pair, in order.
fn parts(alloc: Global, r: &[Value], part: Part) -> Result<Vec<Value>, AllocError>
    ensures { IfOk result (λ all. all.items ≡ filter_map (step.part_of part) r.now) }
{
    let mut all = Vec::new(alloc);
    for value in r {
        if let Some(taken) = part_of(alloc, part, value)? {
            all.push(taken)?;
        }
    }
    Ok(all)
}
