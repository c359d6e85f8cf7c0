//! The numbers of what binders bind. The only error of each function is want of memory, which also comes where a number passes
//! 2^32.
ghost use Rattle.std.specs.Prelude.{◌≡◌, IfOk};
ghost use Rattle.eb_syntax.specs.declared.ast.Bound.TheVariants as bound;
ghost use Rattle.eb_forms.specs.Widths.{bound_identifiers};
ghost use Rattle.eb_resolved.specs.Resolving.{entries_from};
ghost use Rattle.eb_lowering.specs.Lowering as spec;

use eb_syntax::{Bound, Identifier, Mark};
use numbered_names::Entry;
use sqlite_items::Items;
use std::alloc::{AllocError, Global};

/// Numbers of identifiers.
pub(crate) type Numbers = Items<u32>;

/// The numbers of the entries.
pub(crate) fn entry_numbers(alloc: Global, entries: &[Entry]) -> Result<Numbers, AllocError>
    ensures { IfOk result (λ numbers. numbers ≡ spec.entry_numbers entries.now) }
{
    let mut numbers = Items::new(alloc);
    for entry in entries {
        numbers.push(entry.number)?;
    }
    Ok(numbers)
}

fn identifier_numbers(
    alloc: Global,
    first: u32,
    identifiers: &[Identifier],
) -> Result<Numbers, AllocError>
    ensures { IfOk result (λ numbers. numbers ≡ spec.entry_numbers (entries_from first identifiers.now)) }
{
    let mut numbers = Items::new(alloc);
    let mut number = first;
    for _identifier in identifiers {
        numbers.push(number)?;
        number = number.checked_add(1).ok_or(AllocError)?;
    }
    Ok(numbers)
}

fn pattern_numbers(alloc: Global, first: u32, marks: &[Mark]) -> Result<Numbers, AllocError>
    ensures { IfOk result (λ numbers. numbers ≡ spec.entry_numbers (entries_from first (bound_identifiers (bound.Pattern marks.now)))) }
{
    let mut numbers = Items::new(alloc);
    let mut number = first;
    for mark in marks {
        if let Mark::Identifier(_) = mark {
            numbers.push(number)?;
            number = number.checked_add(1).ok_or(AllocError)?;
        }
    }
    Ok(numbers)
}

/// The numbers of what a binder binds, of which the first has this one.
pub(crate) fn bound_numbers(alloc: Global, first: u32, bound: &Bound) -> Result<Numbers, AllocError>
    ensures { IfOk result (λ numbers. numbers ≡ spec.entry_numbers (entries_from first (bound_identifiers bound.now))) }
{
    match bound {
        Bound::Identifiers(identifiers) => identifier_numbers(alloc, first, identifiers.as_slice()),
        Bound::Pattern(marks) => pattern_numbers(alloc, first, marks.as_slice()),
    }
}
