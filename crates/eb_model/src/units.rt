//! The model of a text.
ghost use Rattle.std.specs.Prelude.{◌≡◌, ◌++◌, IfOk, OnOk};
ghost use Rattle.eb_scoping.specs.Models.{marked};
ghost use Rattle.eb_model.specs.Models as spec;

use crate::model::{EbModel, ModelPart};
use crate::walker::Walker;
use eb_scoping::model_units;
use eb_syntax::EbUnit;
use numbered_names::{Entry, Scope};
use sqlite_items::Items;
use std::alloc::{AllocError, Global};

/// The walk over the model, with these declared identifiers.
fn walked(
    alloc: Global,
    scope: &Scope,
    units: &[EbUnit],
    marks: &[bool],
) -> Result<Walker, AllocError>
    ensures { IfOk result (λ walker. walker ≡ spec.walk scope.now.entries (marked units.now marks.now)) }
{
    let mut walker = Walker::new(alloc);
    let mut rest = marks;
    for unit in units {
        let Some((mark, others)) = rest.split_first() else {
            return Ok(walker);
        };
        walker.marked_unit(alloc, scope, *mark, unit)?;
        rest = others;
    }
    Ok(walker)
}

/// Writes what the part declares to the end.
fn push_declared(
    alloc: Global,
    part: &ModelPart,
    entries: &mut Items<Entry>,
) -> Result<(), AllocError>
    ensures { OnOk result (entries.new ≡ entries.old ++ spec.part_declares part.now) }
{
    match part {
        ModelPart::Carrier(_, entry) | ModelPart::Constant(entry) | ModelPart::Variable(entry) => {
            entries.push(Entry::new(alloc, &entry.name, entry.number)?)?;
            Ok(())
        }
        ModelPart::Axiom(_) | ModelPart::Invariant(_) | ModelPart::Event(_) => Ok(()),
    }
}

/// The identifiers that the parts declare.
fn declared(alloc: Global, parts: &[ModelPart]) -> Result<Items<Entry>, AllocError>
    ensures { IfOk result (λ entries. entries ≡ spec.declared_in parts.now) }
{
    let mut entries = Items::new(alloc);
    for part in parts {
        push_declared(alloc, part, &mut entries)?;
    }
    Ok(entries)
}

/// The identifiers that these units declare.
fn declared_by(alloc: Global, units: &[EbUnit], marks: &[bool]) -> Result<Items<Entry>, AllocError>
    ensures { IfOk result (λ entries. entries ≡ spec.declared (marked units.now marks.now)) }
{
    let nothing = Scope::new(alloc, Items::new(alloc), 0)?;
    let first = walked(alloc, &nothing, units, marks)?;
    let model = first.model();
    declared(alloc, model.parts.as_slice())
}

/// The model of the text that has these units: the machine with the contexts that it reaches, or without a machine all contexts,
/// with numbers in place of names.
///
/// Declared identifiers, bound identifiers and marks (`{}`, `id`, `prj1`, `prj2`) are numbered together from 0, in the order
/// in which they stand in the text; an identifier that `{E|P}` binds stands where E uses it first. The only error is want of
/// memory, which also comes where there are more than 2^32 numbers.
pub fn resolve_model(alloc: Global, units: &[EbUnit]) -> Result<EbModel, AllocError>
    ensures { IfOk result (λ model. spec.IsModelOf units.now model) }
{
    let marks = model_units(alloc, units)?;
    let declared = declared_by(alloc, units, marks.as_slice())?;
    let scope = Scope::new(alloc, declared, 0)?;
    let second = walked(alloc, &scope, units, marks.as_slice())?;
    Ok(second.model())
}
