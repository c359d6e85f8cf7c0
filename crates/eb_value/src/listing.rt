ghost use Rattle.std.specs.Prelude.{◌≡◌, ◌++◌, ◌∷◌, [], IfOk, OnOk, map, true, false, ◌+ℤ◌, pos, FitsSigned};
ghost use Rattle.std.specs.Int.{w64};
ghost use Rattle.eb_value.specs.Values.{atom, pair, set, truth};
ghost use Rattle.eb_value.specs.Counts.{integers_within};
ghost use Rattle.eb_value.specs.Scopes as spec;

use crate::lists::Values;
use crate::scope::Scope;
use crate::types::{EbType, Shape};
use crate::typing::{count, size_of};
use crate::value::{Value, push_copy, values_copied};
use sqlite_items::Items;
use std::alloc::{AllocError, Global};

/// All values of the type in the scope, ascending. The only error is want of memory.
#[cycle(listing)]
pub fn values(alloc: Global, ty: &EbType, scope: &Scope) -> Result<Values, AllocError>
    ensures { IfOk result (λ all. all ≡ spec.vals scope.now ty.now) }
{
    match &ty.shape {
        Shape::Integer => integers(alloc, scope.lo, scope.hi),
        Shape::Bool => truths(alloc),
        Shape::Carrier(place) => atoms(alloc, *place, size_of(scope, *place)),
        Shape::Product(s, t) => {
            // Where one factor is empty the other may be too long to list.
            if count(ty, scope) == 0 {
                return Ok(Values::new(alloc));
            }
            let first = values(alloc, s.get(), scope)?;
            let second = values(alloc, t.get(), scope)?;
            pairs(alloc, first.as_slice(), second.as_slice())
        }
        Shape::Power(t) => {
            let members = values(alloc, t.get(), scope)?;
            sets(alloc, members.as_slice())
        }
    }
}

/// The integers from one to another, ascending. The only error is want of memory.
pub fn integers(alloc: Global, lo: i64, hi: i64) -> Result<Values, AllocError>
    ensures { IfOk result (λ all. all ≡ spec.ints_from lo (integers_within lo hi)) }
{
    let mut all = Values::new(alloc);
    if lo > hi {
        return Ok(all);
    }
    for k in 0..hi.abs_diff(lo) {
        all.push(Value::integer(moved_up(lo, k)))?;
    }
    all.push(Value::integer(hi))?;
    Ok(all)
}

fn moved_up(n: i64, by: u64) -> i64
    requires { FitsSigned w64 (n +ℤ pos by) }
    ensures { result ≡ n +ℤ pos by }
{
    (i128::from(n) + i128::from(by)) as i64
}

fn truths(alloc: Global) -> Result<Values, AllocError>
    ensures { IfOk result (λ all. all ≡ truth false ∷ truth true ∷ []) }
{
    let mut all = Values::new(alloc);
    all.push(Value::truth(false))?;
    all.push(Value::truth(true))?;
    Ok(all)
}

fn atoms(alloc: Global, place: u32, size: u32) -> Result<Values, AllocError>
    ensures { IfOk result (λ all. all ≡ spec.atoms_from place 1 size) }
{
    let mut all = Values::new(alloc);
    for number in 0..size {
        all.push(Value::atom(place, number + 1))?;
    }
    Ok(all)
}

/// The pair of the two values.
pub(crate) fn pair_of(alloc: Global, first: &Value, second: &Value) -> Result<Value, AllocError>
    ensures { IfOk result (λ v. v ≡ pair first.now second.now) }
{
    let first = first.copied(alloc)?;
    let second = second.copied(alloc)?;
    Value::pair(alloc, first, second)
}

/// All pairs of a value of the one list and a value of the other.
pub(crate) fn pairs(
    alloc: Global,
    firsts: &[Value],
    seconds: &[Value],
) -> Result<Values, AllocError>
    ensures { IfOk result (λ all. all ≡ spec.pairs firsts.now seconds.now) }
{
    let mut all = Vec::new(alloc);
    for first in firsts {
        push_pairs(alloc, &mut all, first, seconds)?;
    }
    Ok(Values::from_vec(all))
}

/// Adds the pairs of the first with each second.
pub(crate) fn push_pairs(
    alloc: Global,
    all: &mut Vec<Value>,
    first: &Value,
    seconds: &[Value],
) -> Result<(), AllocError>
    ensures { OnOk result (all.new.items ≡ all.old.items ++ map (pair first.now) seconds.now) }
{
    for second in seconds {
        all.push(pair_of(alloc, first, second)?)?;
    }
    Ok(())
}

/// All sets of members.
fn sets(alloc: Global, members: &[Value]) -> Result<Values, AllocError>
    ensures { IfOk result (λ all. all ≡ spec.sets members.now) }
{
    let mut all = Values::new(alloc);
    all.push(Value::set(Values::new(alloc)))?;
    let lists = nonempty(alloc, members)?;
    push_sets(alloc, &mut all, lists.as_slice())?;
    Ok(all)
}

/// Adds the set of each list.
fn push_sets(alloc: Global, all: &mut Values, lists: &[Values]) -> Result<(), AllocError>
    ensures { OnOk result (all.new ≡ all.old ++ map set lists.now) }
{
    for list in lists {
        let members = values_copied(alloc, list.as_slice())?;
        all.push(Value::set(members))?;
    }
    Ok(())
}

/// The lists of members that are not empty.
fn nonempty(alloc: Global, members: &[Value]) -> Result<Items<Values>, AllocError>
    ensures { IfOk result (λ all. all ≡ spec.some_of members.now) }
{
    let [first, others @ ..] = members else {
        return Ok(Items::new(alloc));
    };
    let rest = nonempty(alloc, others)?;
    let mut all = begun(alloc, first, rest.as_slice())?;
    all.append(rest)?;
    Ok(all)
}

/// The list of the first alone, and it before each of the lists.
fn begun(alloc: Global, first: &Value, rest: &[Values]) -> Result<Items<Values>, AllocError>
    ensures { IfOk result (λ all. all ≡ map (λ list. first.now ∷ list) ([] ∷ rest.now)) }
{
    let mut all = Items::new(alloc);
    all.push(one(alloc, first)?)?;
    push_behind(alloc, &mut all, first, rest)?;
    Ok(all)
}

fn one(alloc: Global, member: &Value) -> Result<Values, AllocError>
    ensures { IfOk result (λ list. list ≡ member.now ∷ []) }
{
    let mut list = Values::new(alloc);
    push_copy(alloc, &mut list, member)?;
    Ok(list)
}

/// Adds each list with a member put before it.
fn push_behind(
    alloc: Global,
    all: &mut Items<Values>,
    first: &Value,
    lists: &[Values],
) -> Result<(), AllocError>
    ensures { OnOk result (all.new ≡ all.old ++ map (λ list. first.now ∷ list) lists.now) }
{
    for list in lists {
        let mut longer = one(alloc, first)?;
        longer.append(values_copied(alloc, list.as_slice())?)?;
        all.push(longer)?;
    }
    Ok(())
}
