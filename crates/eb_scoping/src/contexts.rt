//! The contexts that the machine of a text reaches, and those that a context reaches.
ghost use Rattle.std.specs.Prelude.{◌≡◌, ◌++◌, ◌<◌, ◌≤◌, ◌↔◌, IsTrue, [], ◌∷◌, false, true, IfOk, OnOk, length, get_or, All, map, filter, Some, bytes_eq, Contains, List, ℕ};
ghost use Rattle.eb_syntax.specs.declared.units.EbUnit.{EbUnit};
ghost use Rattle.eb_scoping.specs.Models as spec;
ghost use Rattle.eb_scoping.specs.FreeNames.{names_of, is_among as is_listed};
ghost use Rattle.eb_scoping.specs.Groups.{group, IsIndex};
ghost use Rattle.eb_scoping.specs.Walks.{IsWalk};
ghost use Rattle.eb_scoping.specs.steps.Heads.{AreHeads, seen_heads, heads_of};
ghost use Rattle.eb_scoping.specs.steps.Marks.{AreContextsMarked};
ghost use Rattle.eb_scoping.specs.steps.Marks as marking;
ghost use Rattle.eb_scoping.specs.steps.Walking.{IsEmptyWalk, Adds, extends_of, IsBehind, IsExtendedBy, has_sought};

use super::sets::{NameSet, has_name, insert_name};
use super::uses::is_among;
use eb_syntax::{EbUnit, Identifier, Machine};
use std::alloc::{AllocError, Global};
use std::collections::{BTreeMap, BTreeSet};

/// The places of the contexts of a text by their names.
pub type Groups<'a> = BTreeMap<&'a str, Vec<usize>>;

/// The names that are reached by `extends` from some first ones, found as far as they were asked for: as a set, and in the order
/// in which they were reached. What the contexts of the names in front of `done` extend is reached too.
#[derive(Drop)]
pub struct Walk<'a> {
    /// The names that are reached.
    pub names: NameSet<'a>,
    /// The same in the order in which they were reached.
    pub queue: Vec<&'a str>,
    /// How many of them were gone on from.
    pub done: usize,
}

fn push_head<'a>(
    unit: &'a EbUnit,
    place: usize,
    heads: &mut Vec<(&'a str, usize)>,
) -> Result<(), AllocError>
    ensures { OnOk result (seen_heads heads.new.items ≡ seen_heads heads.old.items ++ heads_of unit.now place) }
{
    if let EbUnit::Context(context) = unit {
        heads.push((context.name.name.as_str(), place))?;
    }
    Ok(())
}

/// The name and the place of each context.
fn heads<'a>(alloc: Global, units: &'a [EbUnit]) -> Result<Vec<(&'a str, usize)>, AllocError>
    ensures { IfOk result (λ heads. AreHeads units.now (length units.now) (seen_heads heads.items)) }
{
    let mut heads = Vec::new(alloc);
    for i in 0..units.len() {
        push_head(&units[i], i, &mut heads)?;
    }
    Ok(heads)
}

/// The numbers of these pairs by their texts, in the order of the pairs. The only error is want of memory.
pub fn grouped<'a>(alloc: Global, heads: &[(&'a str, usize)]) -> Result<Groups<'a>, AllocError>
    ensures { IfOk result (λ m. (q : List ℕ) → group m q ≡ map (λ p. p.1) (filter (λ p. bytes_eq q p.0.now) heads.now)) }
{
    let mut groups: Groups<'a> = BTreeMap::new(alloc);
    for (name, place) in heads {
        groups.entry(*name)?.or_default().push(*place)?;
    }
    Ok(groups)
}

/// The places of the contexts of a text by their names. The only error is want of memory.
pub fn context_places<'a>(alloc: Global, units: &'a [EbUnit]) -> Result<Groups<'a>, AllocError>
    ensures { IfOk result (λ groups. IsIndex units.now groups) }
{
    let heads = heads(alloc, units)?;
    grouped(alloc, &heads)
}

/// A walk that has reached nothing.
fn empty_walk<'a>(alloc: Global) -> Walk<'a>
    ensures { IsEmptyWalk result }
{
    Walk {
        names: BTreeSet::new(alloc),
        queue: Vec::new(alloc),
        done: 0,
    }
}

fn reach<'a>(walk: &mut Walk<'a>, name: &'a str) -> Result<(), AllocError>
    ensures { OnOk result (Adds walk.old walk.new (λ q. name.now ≡ q)) }
{
    if has_name(&walk.names, name) {
        return Ok(());
    }
    insert_name(&mut walk.names, name)?;
    walk.queue.push(name)?;
    Ok(())
}

fn reach_names<'a>(walk: &mut Walk<'a>, names: &'a [Identifier]) -> Result<(), AllocError>
    ensures { OnOk result (Adds walk.old walk.new (Contains (names_of names.now))) }
{
    for name in names {
        reach(walk, name.name.as_str())?;
    }
    Ok(())
}

/// Reaches what the unit extends.
fn reach_behind<'a>(walk: &mut Walk<'a>, unit: &'a EbUnit) -> Result<(), AllocError>
    ensures { OnOk result (Adds walk.old walk.new (Contains (extends_of unit.now))) }
{
    match unit {
        EbUnit::Context(context) => reach_names(walk, context.extends.as_slice()),
        EbUnit::Machine(_) | EbUnit::Scope(_) | EbUnit::Queries(_) => reach_names(walk, &[]),
    }
}

pub(crate) fn unit_at(units: &[EbUnit], place: usize) -> &EbUnit
    requires { place < length units.now }
    ensures { result.now ≡ get_or units.now place result.now }
{
    &units[place]
}

/// Reaches what the units at these places extend.
fn reach_places<'a>(
    walk: &mut Walk<'a>,
    units: &'a [EbUnit],
    places: &[usize],
) -> Result<(), AllocError>
    requires { All (λ place. place < length units.now) places.now }
    ensures { OnOk result (Adds walk.old walk.new (IsBehind units.now places.now)) }
{
    for place in places {
        reach_behind(walk, unit_at(units, *place))?;
    }
    Ok(())
}

/// Reaches what the contexts of this name extend.
fn expand<'a>(
    groups: &Groups<'_>,
    walk: &mut Walk<'a>,
    units: &'a [EbUnit],
    name: &str,
) -> Result<(), AllocError>
    requires { IsIndex units.now groups.now }
    ensures { OnOk result (Adds walk.old walk.new (IsExtendedBy units.now name.now)) }
{
    match groups.get(name) {
        Some(places) => reach_places(walk, units, places),
        None => reach_places(walk, units, &[]),
    }
}

fn is_found(walk: &Walk<'_>, sought: Option<&str>) -> bool
    ensures { result ≡ has_sought walk.now sought.entry }
{
    match sought {
        Some(name) => has_name(&walk.names, name),
        None => false,
    }
}

/// Goes on until the sought name is reached, and answers whether it is, or until nothing is left.
fn search<'a>(
    groups: &Groups<'_>,
    walk: &mut Walk<'a>,
    units: &'a [EbUnit],
    sought: Option<&str>,
) -> Result<bool, AllocError>
    requires { IsIndex units.now groups.now }
    ensures walk { OnOk result ((first : List (List ℕ)) → IsWalk units.now first walk.old → IsWalk units.now first walk.new) }
    ensures found { IfOk result (λ found. found ≡ has_sought walk.new sought.entry) }
    ensures ends { IfOk result (λ found. found ≡ false → length walk.new.queue.items ≤ walk.new.done) }
{
    for at in walk.done..usize::MAX {
        if is_found(walk, sought) {
            return Ok(true);
        }
        if at >= walk.queue.len() {
            return Ok(false);
        }
        let name = walk.queue[at];
        expand(groups, walk, units, name)?;
        walk.done = at + 1;
    }
    Ok(is_found(walk, sought))
}

/// Whether the unit is a context of one of these names.
fn is_named_in(names: &NameSet<'_>, unit: &EbUnit) -> bool
    ensures { result ≡ marking.is_named_in names.now unit.now }
{
    match unit {
        EbUnit::Context(context) => has_name(names, context.name.name.as_str()),
        EbUnit::Machine(_) | EbUnit::Scope(_) | EbUnit::Queries(_) => false,
    }
}

/// A mark for each unit: true for the contexts of these names.
fn marks_by_name(
    alloc: Global,
    units: &[EbUnit],
    names: &NameSet<'_>,
) -> Result<Vec<bool>, AllocError>
    ensures { IfOk result (λ marks. marks.items ≡ map (marking.is_named_in names.now) units.now) }
{
    let mut marks = Vec::new(alloc);
    for unit in units {
        marks.push(is_named_in(names, unit))?;
    }
    Ok(marks)
}

/// A mark for each unit: true for the contexts that the machine reaches by `sees` and `extends`.
pub(crate) fn reached(
    alloc: Global,
    units: &[EbUnit],
    machine: &Machine,
) -> Result<Vec<bool>, AllocError>
    requires { spec.machine_of units.now ≡ Some machine.now }
    ensures { IfOk result (λ marks. AreContextsMarked units.now marks.items) }
{
    let groups = context_places(alloc, units)?;
    let mut walk = empty_walk(alloc);
    reach_names(&mut walk, machine.sees.as_slice())?;
    search(&groups, &mut walk, units, None)?;
    marks_by_name(alloc, units, &walk.names)
}

/// A walk from the contexts of this name. The only error is want of memory.
pub fn walk_from<'a>(alloc: Global, name: &'a str) -> Result<Walk<'a>, AllocError>
    ensures { IfOk result (λ walk. (us : List EbUnit) → IsWalk us (name.now ∷ []) walk) }
{
    let mut walk = empty_walk(alloc);
    reach(&mut walk, name)?;
    Ok(walk)
}

/// Whether the contexts of the name from which the walk comes reach this one by `extends` in none, one or more steps, in a text
/// whose contexts have these places. It goes on with the walk as far as needed: all answers about one walk cost as much together
/// as one way over what its first name reaches. The only error is want of memory.
pub fn walk_reaches<'a>(
    places: &Groups<'_>,
    walk: &mut Walk<'a>,
    units: &'a [EbUnit],
    name: &str,
) -> Result<bool, AllocError>
    requires { IsIndex units.now places.now }
    ensures walk { OnOk result ((first : List (List ℕ)) → IsWalk units.now first walk.old → IsWalk units.now first walk.new) }
    ensures answer { IfOk result (λ found. (from : List ℕ) → IsWalk units.now (from ∷ []) walk.old → (IsTrue found ↔ spec.Extends units.now from name.now)) }
{
    search(places, walk, units, Some(name))
}

/// Whether the unit extends the name.
fn unit_extends(unit: &EbUnit, name: &str) -> bool
    ensures { result ≡ is_listed (extends_of unit.now) name.now }
{
    match unit {
        EbUnit::Context(context) => is_among(context.extends.as_slice(), name),
        EbUnit::Machine(_) | EbUnit::Scope(_) | EbUnit::Queries(_) => is_among(&[], name),
    }
}

/// Whether the first context of the one name extends the other.
fn context_extends(groups: &Groups<'_>, units: &[EbUnit], name: &str, extended: &str) -> bool
    requires { IsIndex units.now groups.now }
    ensures { result ≡ true → IsExtendedBy units.now name.now extended.now }
{
    match groups.get(name) {
        Some(places) => match places.first() {
            Some(place) => unit_extends(unit_at(units, *place), extended),
            None => false,
        },
        None => false,
    }
}

/// Whether the walk from the contexts of the one name is a walk from those of the other now. It is where the names are the same, or
/// the first context of the other one extends the first one. So one walk serves a chain of contexts, in the order in which they
/// stand. The only error is want of memory.
pub fn lead_walk<'a>(
    places: &Groups<'_>,
    walk: &mut Walk<'a>,
    units: &'a [EbUnit],
    from: &str,
    name: &'a str,
) -> Result<bool, AllocError>
    requires { IsIndex units.now places.now }
    ensures { IfOk result (λ led. led ≡ true → IsWalk units.now (from.now ∷ []) walk.old → IsWalk units.now (name.now ∷ []) walk.new) }
{
    if from == name {
        return Ok(true);
    }
    if !context_extends(places, units, name, from) {
        return Ok(false);
    }
    reach(walk, name)?;
    Ok(true)
}
