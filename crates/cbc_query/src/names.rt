//! The names of identifiers, by their numbers.
ghost use Rattle.std.specs.Prelude.{◌≡◌, ℕ, [], IfOk, OnOk, unwrap_or};
ghost use Rattle.std.specs.BTreeMap.{get};
ghost use Rattle.std.specs.Ordering.{nat_cmp};
ghost use Rattle.cbc_query.specs.steps.Named as step;

use eb_names::Name;
use numbered_names::Entry;
use std::alloc::{AllocError, Global};
use std::collections::BTreeMap;

/// Names by their numbers.
pub(crate) type NamesByNumber = BTreeMap<u32, Name>;

/// Adds a number that isn't there yet.
fn add(alloc: Global, names: &mut NamesByNumber, entry: &Entry) -> Result<(), AllocError>
    ensures { OnOk result ((k : ℕ) → get nat_cmp names.new k ≡ step.or_name k (get nat_cmp names.old k) entry.now) }
{
    if names.get(&entry.number).is_none() {
        let name = entry.name.copied(alloc)?;
        names.insert(entry.number, name)?;
    }
    Ok(())
}

/// The name of the first entry of each number. The only error is want of memory.
pub(crate) fn names_of(alloc: Global, entries: &[Entry]) -> Result<NamesByNumber, AllocError>
    ensures { IfOk result (λ names. (k : ℕ) → get nat_cmp names k ≡ step.first_name k entries.now) }
{
    let mut names = BTreeMap::new(alloc);
    for entry in entries {
        add(alloc, &mut names, entry)?;
    }
    Ok(names)
}

/// A copy of the name of a number, the empty one where there is none. The only error is want of memory.
pub(crate) fn name_of(alloc: Global, names: &NamesByNumber, number: u32) -> Result<Name, AllocError>
    ensures { IfOk result (λ name. name ≡ unwrap_or (get nat_cmp names.now number) []) }
{
    match names.get(&number) {
        Some(name) => name.copied(alloc),
        None => Name::new(alloc, ""),
    }
}
