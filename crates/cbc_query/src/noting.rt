//! The notes of the query `axioms`. The only error of each function is want of memory.
ghost use Rattle.std.specs.Prelude.{◌≡◌, ◌++◌, ℕ, [], codes, unwrap_or, IfOk};
ghost use Rattle.std.specs.BTreeMap.{get};
ghost use Rattle.std.specs.List.{flat_map};
ghost use Rattle.std.specs.Ordering.{nat_cmp};
ghost use Rattle.cbc_query.specs.Notes as spec;
ghost use Rattle.cbc_query.specs.Parts as parted;
ghost use Rattle.cbc_query.specs.steps.Distinct.{with_all};
ghost use Rattle.cbc_query.specs.steps.Told as step;

use crate::bounded::push_bound_in;
use crate::distinct::Distinct;
use crate::known::setting_of;
use crate::names::{NamesByNumber, name_of, names_of};
use crate::note::Note;
use crate::told::{push_numbers, type_has_integers};
use eb_infer::Typing;
use eb_lowering::{Ranges, Setting, term_of};
use eb_model::{EbModel, LabelledFormula, ModelPart};
use eb_names::Name;
use eb_narrow::narrow;
use eb_resolved::Resolved;
use eb_value::Scope;
use sqlite_items::Items;
use std::alloc::{AllocError, Global};

/// The label with its `@`.
fn label_of(alloc: Global, label: &Name) -> Result<Name, AllocError>
    ensures { IfOk result (λ text. text ≡ codes "@" ++ label.now) }
{
    let mut text = String::from_str(alloc, "@")?;
    text.push_str(label.as_str())?;
    Name::new(alloc, text.as_str())
}

/// The numbers that the ranges of the formula's narrow form tell.
fn numbers_of(
    alloc: Global,
    setting: &Setting,
    formula: &Resolved,
) -> Result<Items<u32>, AllocError>
    ensures { IfOk result (λ numbers. numbers ≡ step.told_numbers setting.now formula.now) }
{
    let term = term_of(alloc, setting, formula)?;
    let term = narrow(alloc, &term)?;
    let mut numbers = Items::new(alloc);
    push_numbers(&term, &mut numbers)?;
    Ok(numbers)
}

/// The names of what the formula binds, by their numbers.
fn bound_names(alloc: Global, formula: &Resolved) -> Result<NamesByNumber, AllocError>
    ensures { IfOk result (λ names. (k : ℕ) → unwrap_or (get nat_cmp names k) [] ≡ spec.name_in (spec.bound_in formula.now) k) }
{
    let mut entries = Items::new(alloc);
    push_bound_in(alloc, formula, &mut entries)?;
    let names = names_of(alloc, entries.as_slice())?;
    Ok(names)
}

/// With the note of a number, if its type has integers and it isn't there yet.
fn with_number(
    alloc: Global,
    setting: &Setting,
    label: &Name,
    names: &NamesByNumber,
    number: u32,
    notes: Distinct,
) -> Result<Distinct, AllocError>
    ensures { IfOk result (λ all. all ≡ with_all notes (step.named_notes setting.now.types label.now (λ k. unwrap_or (get nat_cmp names.now k) []) number)) }
{
    if !type_has_integers(&setting.types, number) {
        return Ok(notes);
    }
    let label = label_of(alloc, label)?;
    let identifier = name_of(alloc, names, number)?;
    let notes = notes.with(alloc, Note { label, identifier })?;
    Ok(notes)
}

/// With the notes of the numbers.
fn with_numbers(
    alloc: Global,
    setting: &Setting,
    label: &Name,
    names: &NamesByNumber,
    numbers: &[u32],
    before: Distinct,
) -> Result<Distinct, AllocError>
    ensures { IfOk result (λ all. all ≡ with_all before (flat_map (step.named_notes setting.now.types label.now (λ k. unwrap_or (get nat_cmp names.now k) [])) numbers.now)) }
{
    let mut notes = before;
    for number in numbers {
        notes = with_number(alloc, setting, label, names, *number, notes)?;
    }
    Ok(notes)
}

/// With the notes of a formula.
fn with_formula(
    alloc: Global,
    setting: &Setting,
    labelled: &LabelledFormula,
    notes: Distinct,
) -> Result<Distinct, AllocError>
    ensures { IfOk result (λ all. all ≡ with_all notes (step.notes_of setting.now labelled.now)) }
{
    let numbers = numbers_of(alloc, setting, &labelled.formula)?;
    let names = bound_names(alloc, &labelled.formula)?;
    let label = &labelled.label;
    let notes = with_numbers(alloc, setting, label, &names, numbers.as_slice(), notes)?;
    Ok(notes)
}

/// With the notes of a part of the model.
fn with_part(
    alloc: Global,
    setting: &Setting,
    part: &ModelPart,
    notes: Distinct,
) -> Result<Distinct, AllocError>
    ensures { IfOk result (λ all. all ≡ with_all notes (flat_map (step.notes_of setting.now) (parted.part_axioms part.now))) }
{
    match part {
        ModelPart::Axiom(labelled) => {
            if labelled.is_theorem {
                Ok(notes)
            } else {
                with_formula(alloc, setting, labelled, notes)
            }
        }
        ModelPart::Carrier(_, _) => Ok(notes),
        ModelPart::Constant(_) => Ok(notes),
        ModelPart::Variable(_) => Ok(notes),
        ModelPart::Invariant(_) => Ok(notes),
        ModelPart::Event(_) => Ok(notes),
    }
}

/// With the notes of the parts of the model.
fn with_parts(
    alloc: Global,
    setting: &Setting,
    parts: &[ModelPart],
    before: Distinct,
) -> Result<Distinct, AllocError>
    ensures { IfOk result (λ all. all ≡ with_all before (flat_map (step.notes_of setting.now) (flat_map parted.part_axioms parts.now))) }
{
    let mut notes = before;
    for part in parts {
        notes = with_part(alloc, setting, part, notes)?;
    }
    Ok(notes)
}

/// The notes of the query `axioms`: the label of an axiom with a bound identifier that takes its values, in which there are
/// integers, from the scope, since the axiom tells no set that it belongs to. They stand in the order of the text and of narrow
/// form, each once. The only error is want of memory. The time grows with narrow form, so this is for models of which
/// `axioms_problem` has a problem.
pub fn axioms_notes(
    alloc: Global,
    scope: &Scope,
    model: &EbModel,
    types: &Typing,
) -> Result<Items<Note>, AllocError>
    ensures notes { IfOk result (λ notes. notes ≡ spec.axioms_notes scope.now model.now types.now) }
{
    let setting = setting_of(alloc, scope, model, types, Ranges::Told)?;
    let parts = model.parts.as_slice();
    let notes = with_parts(alloc, &setting, parts, Distinct::new(alloc))?;
    Ok(notes.into_notes())
}
