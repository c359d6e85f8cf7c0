//! Whether the names of a text make up a model.
ghost use Rattle.std.specs.Prelude.{◌≡◌, [], IfOk, IfErr};
ghost use Rattle.eb_lower.specs.Names.{AreNamed, IsFaultOf};
ghost use Rattle.eb_scoping.specs.Models.{AreMarked};
ghost use Rattle.eb_lower.specs.Unsupported.{unsupported};
ghost use Rattle.eb_lower.specs.steps.Answers as spec;

use crate::fault::NameFault;
use crate::known::judge_usages;
use crate::unsupported::unsupported_place;
use eb_declared::{judge_declarations, parts};
use eb_scoping::model_units;
use eb_syntax::EbUnit;
use std::alloc::Global;

/// Judges the names of a text. The answer is the first of these faults that there is, each by its first place in the text:
/// `Unsupported`, where something stands that is not supported (the place is a byte); `DuplicateName`, where a declaration repeats
/// an earlier one; `UnknownName`, where a name is used and no declaration of it reaches. `Memory` is want of memory.
/// A label is printed behind its `@`, and a primed name before its `'`.
pub fn names(alloc: Global, units: &[EbUnit]) -> Result<(), NameFault>
    ensures named { IfOk result (λ _. AreNamed units.now) }
    ensures cause { IfErr result (IsFaultOf units.now) }
{
    if let Some(place) = unsupported_place(units) {
        return Err(NameFault::Unsupported(place));
    }
    let marks = model_units(alloc, units)?;
    judge(alloc, units, marks.as_slice())
}

/// Judges the declarations and then the usages of units with these marks.
fn judge(alloc: Global, units: &[EbUnit], marks: &[bool]) -> Result<(), NameFault>
    requires marked { AreMarked units.now units.now marks.now }
    requires supported { unsupported units.now ≡ [] }
    ensures { spec.Answers units.now marks.now result }
{
    let found = parts(alloc, units, marks)?;
    if let Err(fault) = judge_declarations(alloc, &found) {
        return Err(NameFault::from(fault));
    }
    judge_usages(alloc, units, marks, &found)
}
