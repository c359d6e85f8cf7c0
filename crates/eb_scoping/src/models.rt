//! The units of a text that its model has.
ghost use Rattle.std.specs.Prelude.{◌≡◌, [], ◌∷◌, IfOk, List, Bool, true, length, replicate, is_some, option_map};
ghost use Rattle.eb_syntax.specs.declared.units.EbUnit.{EbUnit};
ghost use Rattle.eb_scoping.specs.Models as spec;
ghost use Rattle.eb_scoping.specs.steps.Marks.{AreContextsMarked, mark_of};

use super::contexts::{reached, unit_at};
use eb_syntax::{EbUnit, Machine};
use sqlite_items::Items;
use std::alloc::{AllocError, Global};

/// A mark for each unit of a text: true for those of its model, which are the first machine and the contexts that it reaches by
/// `sees` and `extends`, or all contexts where there is no machine. Two contexts of one name are reached together.
/// The only error is want of memory.
pub fn model_units(alloc: Global, units: &[EbUnit]) -> Result<Items<bool>, AllocError>
    ensures { IfOk result (λ marks. spec.AreMarked units.now units.now marks) }
{
    let contexts = contexts(alloc, units)?;
    marked(alloc, units, &contexts)
}

/// A mark for each unit, which tells of contexts whether the model has them.
fn contexts(alloc: Global, units: &[EbUnit]) -> Result<Vec<bool>, AllocError>
    ensures { IfOk result (λ marks. AreContextsMarked units.now marks.items) }
{
    match machine(units) {
        None => true_marks(alloc, units),
        Some(machine) => reached(alloc, units, machine),
    }
}

/// A true mark for each unit.
fn true_marks(alloc: Global, units: &[EbUnit]) -> Result<Vec<bool>, AllocError>
    ensures { IfOk result (λ marks. marks.items ≡ replicate (length units.now) true) }
{
    let mut marks = Vec::new(alloc);
    for _unit in units {
        marks.push(true)?;
    }
    Ok(marks)
}

/// The machine of the text, which is its first one.
pub fn machine(units: &[EbUnit]) -> Option<&Machine>
    ensures { option_map (λ m. m.now) result ≡ spec.machine_of units.now }
{
    for unit in units {
        if let EbUnit::Machine(machine) = unit {
            return Some(machine);
        }
    }
    None
}

/// Whether the unit belongs to the model.
fn is_marked(unit: &EbUnit, is_context_marked: bool, is_behind_machine: bool) -> bool
    ensures { result ≡ mark_of unit.now is_context_marked is_behind_machine }
{
    match unit {
        EbUnit::Context(_) => is_context_marked,
        EbUnit::Machine(_) => !is_behind_machine,
        EbUnit::Scope(_) | EbUnit::Queries(_) => false,
    }
}

fn is_machine(unit: &EbUnit) -> bool
    ensures { result ≡ is_some (spec.machine_of (unit.now ∷ [])) }
{
    matches!(unit, EbUnit::Machine(_))
}

/// The marks of all units, from those of the contexts.
fn marked(alloc: Global, units: &[EbUnit], contexts: &[bool]) -> Result<Items<bool>, AllocError>
    requires { AreContextsMarked units.now contexts.now }
    ensures { IfOk result (λ marks. spec.AreMarked units.now units.now marks) }
{
    let mut marks = Items::new(alloc);
    let mut is_behind_machine = false;
    for i in 0..units.len() {
        let unit = unit_at(units, i);
        marks.push(is_marked(unit, contexts[i], is_behind_machine))?;
        is_behind_machine |= is_machine(unit);
    }
    Ok(marks)
}

/// A text has one list of marks.
pub fn marks_are_determined()
    ensures { (us : List EbUnit) (bs cs : List Bool) → spec.AreMarked us us bs → spec.AreMarked us us cs → bs ≡ cs }
{}
