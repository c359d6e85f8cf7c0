//! Copies of what is bound. The only error is want of memory.
ghost use Rattle.std.specs.Prelude.{◌≡◌, ◌+◌, IfOk};
ghost use Rattle.eb_resolved.specs.Resolving as spec;

use eb_syntax::{Bound, Identifier, Identifiers, Mark, Pattern};
use numbered_names::Entry;
use sqlite_items::Items;
use std::alloc::{AllocError, Global};

fn identifier_copied(alloc: Global, identifier: &Identifier) -> Result<Identifier, AllocError>
    ensures { IfOk result (λ copy. copy ≡ identifier.now) }
{
    let name = identifier.name.copied(alloc)?;
    Ok(Identifier {
        name,
        place: identifier.place,
    })
}

fn identifiers_copied(alloc: Global, all: &[Identifier]) -> Result<Identifiers, AllocError>
    ensures { IfOk result (λ copy. copy ≡ all.now) }
{
    let mut copy = Items::new(alloc);
    for identifier in all {
        copy.push(identifier_copied(alloc, identifier)?)?;
    }
    Ok(copy)
}

fn mark_copied(alloc: Global, mark: &Mark) -> Result<Mark, AllocError>
    ensures { IfOk result (λ copy. copy ≡ mark.now) }
{
    match mark {
        Mark::Identifier(identifier) => {
            let copy = identifier_copied(alloc, identifier)?;
            Ok(Mark::Identifier(copy))
        }
        Mark::MapsTo => Ok(Mark::MapsTo),
        Mark::Open => Ok(Mark::Open),
        Mark::Close => Ok(Mark::Close),
    }
}

fn pattern_copied(alloc: Global, marks: &[Mark]) -> Result<Pattern, AllocError>
    ensures { IfOk result (λ copy. copy ≡ marks.now) }
{
    let mut copy = Items::new(alloc);
    for mark in marks {
        copy.push(mark_copied(alloc, mark)?)?;
    }
    Ok(copy)
}

pub(crate) fn bound_copied(alloc: Global, bound: &Bound) -> Result<Bound, AllocError>
    ensures { IfOk result (λ copy. copy ≡ bound.now) }
{
    match bound {
        Bound::Identifiers(all) => {
            let copy = identifiers_copied(alloc, all.as_slice())?;
            Ok(Bound::Identifiers(copy))
        }
        Bound::Pattern(marks) => {
            let copy = pattern_copied(alloc, marks.as_slice())?;
            Ok(Bound::Pattern(copy))
        }
    }
}

/// The names of the identifiers, each with its number: the first has this one, which the next ones follow. The only error is want
/// of memory, which also comes where a number passes 2^32.
pub fn entries_from(
    alloc: Global,
    first: u32,
    all: &[Identifier],
) -> Result<Items<Entry>, AllocError>
    ensures { IfOk result (λ entries. entries ≡ spec.entries_from first all.now) }
{
    let mut entries = Items::new(alloc);
    let mut number = first;
    for identifier in all {
        entries.push(Entry::new(alloc, &identifier.name, number)?)?;
        number = number.checked_add(1).ok_or(AllocError)?;
    }
    Ok(entries)
}
