//! The identifiers that a formula binds. The only error of each function is want of memory; more than `u32::MAX` numbers count as
//! such.
ghost use Rattle.std.specs.Prelude.{◌≡◌, ◌+◌, ◌++◌, ◌∷◌, [], length, OnOk, IfOk};
ghost use Rattle.std.specs.List.{flat_map};
ghost use Rattle.eb_forms.specs.Widths.{bound_identifiers, mark_identifiers};
ghost use Rattle.eb_resolved.specs.Resolving.{entries_from};
ghost use Rattle.cbc_query.specs.Notes as spec;

use eb_resolved::{Resolved, ResolvedNode};
use eb_syntax::{Bound, Identifier, Mark};
use numbered_names::Entry;
use sqlite_items::Items;
use std::alloc::{AllocError, Global};

fn push_entries(alloc: Global, entries: &[Entry], all: &mut Items<Entry>) -> Result<(), AllocError>
    ensures { OnOk result (all.new ≡ all.old ++ entries.now) }
{
    for entry in entries {
        all.push(Entry::new(alloc, &entry.name, entry.number)?)?;
    }
    Ok(())
}

/// Writes an identifier with its number to the end, and answers the next number.
fn push_identifier(
    alloc: Global,
    number: u32,
    identifier: &Identifier,
    all: &mut Items<Entry>,
) -> Result<u32, AllocError>
    ensures entries { OnOk result (all.new ≡ all.old ++ entries_from number (identifier.now ∷ [])) }
    ensures next { IfOk result (λ n. n ≡ number + 1) }
{
    all.push(Entry::new(alloc, &identifier.name, number)?)?;
    let next = number.checked_add(1).ok_or(AllocError)?;
    Ok(next)
}

fn push_identifiers(
    alloc: Global,
    first: u32,
    identifiers: &[Identifier],
    all: &mut Items<Entry>,
) -> Result<(), AllocError>
    ensures { OnOk result (all.new ≡ all.old ++ entries_from first identifiers.now) }
{
    let mut number = first;
    for identifier in identifiers {
        number = push_identifier(alloc, number, identifier, all)?;
    }
    Ok(())
}

fn push_mark(
    alloc: Global,
    number: u32,
    mark: &Mark,
    all: &mut Items<Entry>,
) -> Result<u32, AllocError>
    ensures entries { OnOk result (all.new ≡ all.old ++ entries_from number (mark_identifiers mark.now)) }
    ensures next { IfOk result (λ n. n ≡ number + length (mark_identifiers mark.now)) }
{
    match mark {
        Mark::Identifier(identifier) => push_identifier(alloc, number, identifier, all),
        Mark::MapsTo => Ok(number),
        Mark::Open => Ok(number),
        Mark::Close => Ok(number),
    }
}

fn push_pattern(
    alloc: Global,
    first: u32,
    marks: &[Mark],
    all: &mut Items<Entry>,
) -> Result<(), AllocError>
    ensures { OnOk result (all.new ≡ all.old ++ entries_from first (flat_map mark_identifiers marks.now)) }
{
    let mut number = first;
    for mark in marks {
        number = push_mark(alloc, number, mark, all)?;
    }
    Ok(())
}

/// Writes what a binder binds, of which the first identifier has this number, to the end.
fn push_bound(
    alloc: Global,
    first: u32,
    bound: &Bound,
    all: &mut Items<Entry>,
) -> Result<(), AllocError>
    ensures { OnOk result (all.new ≡ all.old ++ entries_from first (bound_identifiers bound.now)) }
{
    match bound {
        Bound::Identifiers(identifiers) => push_identifiers(
            alloc,
            first,
            identifiers.as_slice(),
            all,
        ),
        Bound::Pattern(marks) => push_pattern(alloc, first, marks.as_slice(), all),
    }
}

/// Writes the identifiers that a formula binds to the end, with their numbers.
#[cycle(binding)]
pub(crate) fn push_bound_in(
    alloc: Global,
    formula: &Resolved,
    all: &mut Items<Entry>,
) -> Result<(), AllocError>
    ensures { OnOk result (all.new ≡ all.old ++ spec.bound_in formula.now) }
{
    match &formula.node {
        ResolvedNode::Number(_) => Ok(()),
        ResolvedNode::Identifier(_) => Ok(()),
        ResolvedNode::Primed(_) => Ok(()),
        ResolvedNode::Unknown(_, _) => Ok(()),
        ResolvedNode::Constant(_) => Ok(()),
        ResolvedNode::Mark(_, _) => Ok(()),
        ResolvedNode::Prefix(_, part) => push_bound_in(alloc, part.get(), all),
        ResolvedNode::Call(_, part) => push_bound_in(alloc, part.get(), all),
        ResolvedNode::Inverse(part) => push_bound_in(alloc, part.get(), all),
        ResolvedNode::Operator(_, left, right) => {
            push_bound_in(alloc, left.get(), all)?;
            push_bound_in(alloc, right.get(), all)
        }
        ResolvedNode::Quantifier(_, entries, part) => {
            push_entries(alloc, entries.as_slice(), all)?;
            push_bound_in(alloc, part.get(), all)
        }
        ResolvedNode::Binder(_, bound, first, condition, value) => {
            push_bound(alloc, *first, bound, all)?;
            push_bound_in(alloc, condition.get(), all)?;
            push_bound_in(alloc, value.get(), all)
        }
        ResolvedNode::Comprehension(entries, condition, value) => {
            push_entries(alloc, entries.as_slice(), all)?;
            push_bound_in(alloc, condition.get(), all)?;
            push_bound_in(alloc, value.get(), all)
        }
        ResolvedNode::Builder(entries, value, condition) => {
            push_entries(alloc, entries.as_slice(), all)?;
            push_bound_in(alloc, value.get(), all)?;
            push_bound_in(alloc, condition.get(), all)
        }
        ResolvedNode::Extension(members) => push_bound_in_all(alloc, members.as_slice(), all),
        ResolvedNode::Partition(members) => push_bound_in_all(alloc, members.as_slice(), all),
    }
}

#[cycle(binding)]
fn push_bound_in_all(
    alloc: Global,
    formulas: &[Resolved],
    all: &mut Items<Entry>,
) -> Result<(), AllocError>
    ensures { OnOk result (all.new ≡ all.old ++ flat_map spec.bound_in formulas.now) }
{
    for formula in formulas {
        push_bound_in(alloc, formula, all)?;
    }
    Ok(())
}
