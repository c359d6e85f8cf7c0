ghost use Rattle.std.specs.Prelude.{◌≡◌, ◌<◌, ◌≤◌, ◌+◌, ◌*◌, [], false, None, List, ℕ, length, MatchResult};
ghost use Rattle.eb_value.specs.declared.types.EbType.{EbType};
ghost use Rattle.type_equations.specs.Equations.{Holds, IsBelow, AreBelow, HaveNone};
ghost use Rattle.type_equations.specs.Faults.{OnFault};
ghost use Rattle.type_equations.specs.steps.Merging as spec;
ghost use Rattle.type_equations.specs.Stores.{Fits, Agrees, ArePlaced, IsPlaced, IsFree, is_link, entry_at};

use crate::equation::Equation;
use crate::fault::SolveFault;
use crate::store::{Entry, Store};
use std::alloc::Global;

/// The one entry for two, neither of which is a link. The pairs of parts that must then be the same come behind the
/// pairs. The fault `Clash` comes exactly where no type fits both.
fn merged(pairs: &mut Vec<(u32, u32)>, first: Entry, second: Entry) -> Result<Entry, SolveFault>
    ensures { MatchResult result (λ entry. spec.Gives (spec.merge first second) entry pairs.old.items pairs.new.items) (λ fault. OnFault fault (spec.merge first second ≡ None) ⊥) }
{
    match (first, second) {
        (Entry::Free, _) => Ok(second),
        (_, Entry::Free) => Ok(first),
        (Entry::Integer, Entry::Integer) => Ok(first),
        (Entry::Boolean, Entry::Boolean) => Ok(first),
        (Entry::Carrier(a), Entry::Carrier(b)) if a == b => Ok(first),
        (Entry::Product(a, b), Entry::Product(c, d)) => {
            pairs.push((a, c))?;
            pairs.push((b, d))?;
            Ok(first)
        }
        (Entry::Power(a), Entry::Power(b)) => {
            pairs.push((a, b))?;
            Ok(first)
        }
        _ => Err(SolveFault::Clash),
    }
}

/// Makes the types of two numbers without links the same, by a link to the smaller. The fault `Clash` comes exactly
/// where they can't be.
fn link(
    store: &mut Store,
    pairs: &mut Vec<(u32, u32)>,
    lower: u32,
    upper: u32,
) -> Result<(), SolveFault>
    requires placed { ArePlaced store.old }
    requires below { spec.PairsBelow (length store.old) pairs.old.items }
    requires order { lower < upper }
    requires there { upper < length store.old }
    requires lower_root { is_link (entry_at store.old lower) ≡ false }
    requires upper_root { is_link (entry_at store.old upper) ≡ false }
    ensures { MatchResult result (λ _. spec.Joins (λ σ. σ lower ≡ σ upper) store.old pairs.old.items store.new pairs.new.items) (λ fault. OnFault fault (spec.Refutes (λ σ. σ lower ≡ σ upper) store.old pairs.old.items) ⊥) }
{
    let kept = store.entry(lower);
    let dropped = store.entry(upper);
    let entry = merged(pairs, kept, dropped)?;
    store.put(lower, entry);
    store.put(upper, Entry::Link(lower));
    Ok(())
}

/// Makes the types of two numbers the same, and puts the pairs of parts that must then be the same behind the pairs.
/// The fault `Clash` comes exactly where they can't be.
fn join(
    store: &mut Store,
    pairs: &mut Vec<(u32, u32)>,
    first: u32,
    second: u32,
) -> Result<(), SolveFault>
    requires placed { ArePlaced store.old }
    requires below { spec.PairsBelow (length store.old) pairs.old.items }
    requires first { first < length store.old }
    requires second { second < length store.old }
    ensures { MatchResult result (λ _. spec.Joins (λ σ. σ first ≡ σ second) store.old pairs.old.items store.new pairs.new.items) (λ fault. OnFault fault (spec.Refutes (λ σ. σ first ≡ σ second) store.old pairs.old.items) ⊥) }
{
    let first = store.root(first);
    let second = store.root(second);
    if first < second {
        link(store, pairs, first, second)?;
        return Ok(());
    }
    if second < first {
        link(store, pairs, second, first)?;
        return Ok(());
    }
    Ok(())
}

/// Gives the number an entry that isn't a link, beside what is known of it, and puts the pairs of parts that must then
/// be the same behind the pairs. The fault `Clash` comes exactly where its type can't be so.
fn bind(
    store: &mut Store,
    pairs: &mut Vec<(u32, u32)>,
    number: u32,
    entry: Entry,
) -> Result<(), SolveFault>
    requires placed { ArePlaced store.old }
    requires below { spec.PairsBelow (length store.old) pairs.old.items }
    requires number { number < length store.old }
    requires entry { IsPlaced (length store.old) number entry }
    requires shape { is_link entry ≡ false }
    ensures { MatchResult result (λ _. spec.Steps (λ σ. Fits σ number entry) store.old pairs.old.items store.new pairs.new.items) (λ fault. OnFault fault (spec.Refutes (λ σ. Fits σ number entry) store.old pairs.old.items) ⊥) }
{
    let root = store.root(number);
    let known = store.entry(root);
    let entry = merged(pairs, known, entry)?;
    store.put(root, entry);
    Ok(())
}

/// Makes the types of each pair the same. The fault `Clash` comes exactly where they can't be.
fn unify(store: &mut Store, pairs: &mut Vec<(u32, u32)>) -> Result<(), SolveFault>
    requires placed { ArePlaced store.old }
    requires below { spec.PairsBelow (length store.old) pairs.old.items }
    ensures { MatchResult result (λ _. spec.Unifies store.old pairs.old.items store.new pairs.new.items) (λ fault. OnFault fault (spec.Differ store.old pairs.old.items) ⊥) }
{
    while let Some((first, second)) = pairs.pop() {
        join(store, pairs, first, second)?;
    }
    Ok(())
}

/// Puts what an equation says into the store, and into the pairs.
fn add(store: &mut Store, pairs: &mut Vec<(u32, u32)>, equation: Equation) -> Result<(), SolveFault>
    requires placed { ArePlaced store.old }
    requires below { spec.PairsBelow (length store.old) pairs.old.items }
    requires there { IsBelow (length store.old) equation }
    ensures { MatchResult result (λ _. spec.Steps (λ σ. Holds σ equation) store.old pairs.old.items store.new pairs.new.items) (λ fault. OnFault fault (spec.Refutes (λ σ. Holds σ equation) store.old pairs.old.items) ⊥) }
{
    match equation {
        Equation::Same(first, second) => join(store, pairs, first, second)?,
        Equation::Integer(number) => bind(store, pairs, number, Entry::Integer)?,
        Equation::Boolean(number) => bind(store, pairs, number, Entry::Boolean)?,
        Equation::Carrier(number, place) => bind(store, pairs, number, Entry::Carrier(place))?,
        Equation::Product(number, first, second) => {
            bind(store, pairs, number, Entry::Product(first, second))?;
        }
        Equation::Power(number, members) => bind(store, pairs, number, Entry::Power(members))?,
    }
    Ok(())
}

/// Makes the store say each equation. The fault `Clash` comes exactly where nothing solves them.
pub(crate) fn add_all(
    alloc: Global,
    store: &mut Store,
    equations: &[Equation],
) -> Result<(), SolveFault>
    requires free { IsFree (length store.old) store.old }
    requires below { AreBelow (length store.old) equations.now }
    ensures { MatchResult result (λ _. spec.Says (length store.old) equations.now store.new) (λ fault. OnFault fault (HaveNone equations.now) ⊥) }
{
    let mut pairs = Vec::new(alloc);
    for equation in equations {
        add(store, &mut pairs, *equation)?;
        unify(store, &mut pairs)?;
    }
    Ok(())
}
