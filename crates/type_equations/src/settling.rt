ghost use Rattle.std.specs.Prelude.{◌≡◌, ◌<◌, [], ◌∷◌, ◌++◌, length, ℕ, IfOk, OnOk, MatchResult, MatchOption};
ghost use Rattle.eb_value.specs.declared.types.EbType.{EbType};
ghost use Rattle.type_equations.specs.declared.marks.Mark.TheVariants as mark;
ghost use Rattle.type_equations.specs.Faults.{OnFault};
ghost use Rattle.type_equations.specs.steps.Deepening.{AreDeep};
ghost use Rattle.type_equations.specs.steps.Settling as spec;
ghost use Rattle.type_equations.specs.Stores.{Agrees, ArePlaced, entry_at};

use crate::depths::{Depths, depth_by};
use crate::fault::SolveFault;
use crate::marks::{Mark, Marks};
use crate::store::{Entry, Store};
use std::alloc::Global;

/// The part, where it isn't settled.
fn pending(marks: &Marks, part: u32) -> Option<u32>
    ensures { result ≡ spec.pending marks.now part }
{
    match marks.mark(part) {
        Mark::Fresh | Mark::Begun => Some(part),
        Mark::Fixed | Mark::Loose => None,
    }
}

/// The first part of the entry that isn't settled.
fn unsettled(marks: &Marks, entry: Entry) -> Option<u32>
    ensures { result ≡ spec.unsettled marks.now entry }
{
    match entry {
        Entry::Link(other) => pending(marks, other),
        Entry::Product(first, second) => match pending(marks, first) {
            Some(part) => Some(part),
            None => pending(marks, second),
        },
        Entry::Power(members) => pending(marks, members),
        _ => None,
    }
}

/// The mark of a number with the entry, by those of its parts.
fn settled(marks: &Marks, entry: Entry) -> Mark
    ensures { result ≡ spec.mark_of marks.now entry }
{
    match entry {
        Entry::Free => Mark::Loose,
        Entry::Link(other) => marks.mark(other),
        Entry::Product(first, second) => match (marks.mark(first), marks.mark(second)) {
            (Mark::Fixed, Mark::Fixed) => Mark::Fixed,
            _ => Mark::Loose,
        },
        Entry::Power(members) => marks.mark(members),
        _ => Mark::Fixed,
    }
}

/// Settles a number at the end of the path, or puts its first part that isn't settled behind it. The fault `Clash` comes
/// only where such a part is on the path, so that a type would be larger than itself.
fn visit(
    store: &Store,
    marks: &mut Marks,
    depths: &mut Depths,
    path: &mut Vec<u32>,
    number: u32,
) -> Result<(), SolveFault>
    requires placed { ArePlaced store.now }
    requires deep { AreDeep store.now marks.old depths.old }
    requires way { spec.IsOnWay store.now marks.old (path.old.items ++ number ∷ []) }
    ensures deep { OnOk result (AreDeep store.now marks.new depths.new) }
    ensures way { MatchResult result (λ _. spec.Goes store.now marks.old path.old.items marks.new path.new.items) (λ fault. OnFault fault (spec.Circular store.now) ⊥) }
{
    match unsettled(marks, store.entry(number)) {
        None => {
            let entry = store.entry(number);
            let mark = settled(marks, entry);
            let depth = depth_by(depths, entry);
            marks.put(number, mark);
            depths.put(number, depth);
        }
        Some(part) => {
            if marks.mark(part) == Mark::Begun {
                return Err(SolveFault::Clash);
            }
            path.push(number)?;
            path.push(part)?;
            marks.put(part, Mark::Begun);
        }
    }
    Ok(())
}

/// Settles a number with all its parts. The path is empty, and stays so. The fault `Clash` comes only where a type would
/// be larger than itself.
fn settle(
    store: &Store,
    marks: &mut Marks,
    depths: &mut Depths,
    path: &mut Vec<u32>,
    number: u32,
) -> Result<(), SolveFault>
    requires placed { ArePlaced store.now }
    requires deep { AreDeep store.now marks.old depths.old }
    requires way { spec.IsOnWay store.now marks.old path.old.items }
    requires idle { path.old.items ≡ [] }
    requires there { number < length store.now }
    ensures deep { OnOk result (AreDeep store.now marks.new depths.new) }
    ensures way { MatchResult result (λ _. spec.Settles store.now number marks.old marks.new path.new.items) (λ fault. OnFault fault (spec.Circular store.now) ⊥) }
{
    if marks.mark(number) == Mark::Fresh {
        path.push(number)?;
        marks.put(number, Mark::Begun);
    }
    while let Some(last) = path.pop() {
        visit(store, marks, depths, path, last)?;
    }
    Ok(())
}

/// Settles each number, and keeps the depths of their types. The fault `Clash` comes exactly where no types agree with
/// the store.
pub(crate) fn settle_all(
    alloc: Global,
    store: &Store,
    depths: &mut Depths,
    total: u32,
) -> Result<Marks, SolveFault>
    requires placed { ArePlaced store.now }
    requires count { length store.now ≡ total }
    requires depths { length depths.old ≡ total }
    ensures deep { IfOk result (λ marks. AreDeep store.now marks depths.new) }
    ensures settled { MatchResult result (λ marks. spec.AreSettled store.now marks) (λ fault. OnFault fault (spec.Circular store.now) ⊥) }
{
    let mut marks = Marks::fresh(alloc, total)?;
    let mut path = Vec::new(alloc);
    for number in 0..total {
        settle(store, &mut marks, depths, &mut path, number)?;
    }
    Ok(marks)
}

/// The first number below that many that isn't fixed.
pub(crate) fn loose(marks: &Marks, asked: u32) -> Option<u32>
    ensures { MatchOption result (spec.AreFixed asked marks.now) (λ number. spec.IsLoose asked marks.now number) }
{
    for number in 0..asked {
        if marks.mark(number) != Mark::Fixed {
            return Some(number);
        }
    }
    None
}
