//! Sets of names.
ghost use Rattle.std.specs.Prelude.{◌≡◌, ◌||◌, ℕ, List, IfOk, OnOk, bytes_eq, map};
ghost use Rattle.eb_scoping.specs.FreeNames.{is_among};
ghost use Rattle.eb_scoping.specs.Sets.{has_text};

use eb_names::Name;
use std::alloc::{AllocError, Global};
use std::collections::BTreeSet;

/// Names, each once. The set is ordered by their bytes, so that no choice of names makes it slow.
pub type NameSet<'a> = BTreeSet<&'a str>;

/// Whether the set has the name.
pub fn has_name(names: &NameSet<'_>, name: &str) -> bool
    ensures { result ≡ has_text names.now name.now }
{
    names.contains(name)
}

/// Adds the name to the set. The only error is want of memory.
pub fn insert_name<'a>(names: &mut NameSet<'a>, name: &'a str) -> Result<(), AllocError>
    ensures { OnOk result ((q : List ℕ) → has_text names.new q ≡ (bytes_eq name.now q || has_text names.old q)) }
{
    names.insert(name)?;
    Ok(())
}

/// The set of these names.
pub(crate) fn name_set<'a>(alloc: Global, names: &[&'a Name]) -> Result<NameSet<'a>, AllocError>
    ensures { IfOk result (λ set. (q : List ℕ) → has_text set q ≡ is_among (map (λ x. x.now) names.now) q) }
{
    let mut set = BTreeSet::new(alloc);
    for name in names {
        insert_name(&mut set, name.as_str())?;
    }
    Ok(set)
}
