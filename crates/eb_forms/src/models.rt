//! The formulas of a model.
ghost use Rattle.std.specs.Prelude.{◌≡◌, IfOk};
ghost use Rattle.eb_forms.specs.declared.kind.Kind.TheVariants as kind;
ghost use Rattle.eb_forms.specs.Forms as spec;
ghost use Rattle.eb_forms.specs.Widths as width;

use crate::forms::{judge, misplaced};
use crate::kind::Kind;
use crate::widths::{Wide, any, either, narrow, widths_of};
use eb_model::{Change, EbModel, LabelledFormula, ModelAction, ModelEvent, ModelPart};
use eb_resolved::Resolved;
use std::alloc::{AllocError, Global};
use type_equations::Solution;

fn in_formula(
    alloc: Global,
    types: &Solution,
    allowed: Kind,
    formula: &Resolved,
) -> Result<Option<u32>, AllocError>
    ensures { IfOk result (λ first. first ≡ spec.misplaced_in types.now allowed formula.now) }
{
    let formula = judge(alloc, types, formula)?;
    Ok(misplaced(allowed, formula))
}

fn in_formulas(
    alloc: Global,
    types: &Solution,
    formulas: &[Resolved],
) -> Result<Option<u32>, AllocError>
    ensures { IfOk result (λ first. first ≡ spec.first_in (spec.misplaced_in types.now kind.Value) formulas.now) }
{
    for formula in formulas {
        let first = in_formula(alloc, types, Kind::Value, formula)?;
        if first.is_some() {
            return Ok(first);
        }
    }
    Ok(None)
}

fn in_labelled(
    alloc: Global,
    types: &Solution,
    formulas: &[LabelledFormula],
) -> Result<Option<u32>, AllocError>
    ensures { IfOk result (λ first. first ≡ spec.first_in (spec.in_formula types.now) formulas.now) }
{
    for formula in formulas {
        let first = in_formula(alloc, types, Kind::Value, &formula.formula)?;
        if first.is_some() {
            return Ok(first);
        }
    }
    Ok(None)
}

fn in_change(alloc: Global, types: &Solution, change: &Change) -> Result<Option<u32>, AllocError>
    ensures { IfOk result (λ first. first ≡ spec.in_change types.now change.now) }
{
    match change {
        Change::BecomesEqual(_, values) => in_formulas(alloc, types, values.as_slice()),
        Change::BecomesEqualAt(_, argument, value) => {
            let first = in_formula(alloc, types, Kind::Value, argument)?;
            let second = in_formula(alloc, types, Kind::Value, value)?;
            Ok(first.or(second))
        }
        Change::BecomesMember(_, set) => in_formula(alloc, types, Kind::Form, set),
        Change::BecomesSuchThat(_, condition) => in_formula(alloc, types, Kind::Value, condition),
    }
}

fn in_actions(
    alloc: Global,
    types: &Solution,
    actions: &[ModelAction],
) -> Result<Option<u32>, AllocError>
    ensures { IfOk result (λ first. first ≡ spec.first_in (spec.in_action types.now) actions.now) }
{
    for action in actions {
        let first = in_change(alloc, types, &action.change)?;
        if first.is_some() {
            return Ok(first);
        }
    }
    Ok(None)
}

fn in_event(alloc: Global, types: &Solution, event: &ModelEvent) -> Result<Option<u32>, AllocError>
    ensures { IfOk result (λ first. first ≡ spec.in_event types.now event.now) }
{
    let guards = in_labelled(alloc, types, event.guards.as_slice())?;
    let actions = in_actions(alloc, types, event.actions.as_slice())?;
    Ok(guards.or(actions))
}

fn in_part(alloc: Global, types: &Solution, part: &ModelPart) -> Result<Option<u32>, AllocError>
    ensures { IfOk result (λ first. first ≡ spec.in_part types.now part.now) }
{
    match part {
        ModelPart::Carrier(_, _) | ModelPart::Constant(_) | ModelPart::Variable(_) => Ok(None),
        ModelPart::Axiom(formula) => in_formula(alloc, types, Kind::Value, &formula.formula),
        ModelPart::Invariant(formula) => in_formula(alloc, types, Kind::Value, &formula.formula),
        ModelPart::Event(event) => in_event(alloc, types, event),
    }
}

/// The place, in bytes, of the first form of the model that stands where it may not, by its types; None where there is no such
/// form. The only error is want of memory.
///
/// Forms are sets that are no values: `INT`, `NAT`, `NAT1`, `POW(F)`, `POW1(F)`, the arrows, and `F ** G` with a part that is a
/// form. A form stands to the right of `:`, `/:`, `<:`, `/<:` and `::`, and as a part of a form; to the right of `<<:` and
/// `/<<:`, to the left of a total arrow and to the right of a surjective one only `INT`, `NAT` and `NAT1` do. `id`, `prj1`
/// and `prj2` over a type with integers stand nowhere.
pub fn first_misplaced(
    alloc: Global,
    model: &EbModel,
    types: &Solution,
) -> Result<Option<u32>, AllocError>
    ensures { IfOk result (λ first. first ≡ spec.in_model types.now model.now) }
{
    for part in model.parts.as_slice() {
        let first = in_part(alloc, types, part)?;
        if first.is_some() {
            return Ok(first);
        }
    }
    Ok(None)
}

fn labelled_widths(formulas: &[LabelledFormula]) -> Wide
    ensures { result ≡ width.each_wide width.wide_in_formula formulas.now }
{
    let mut found = narrow();
    for formula in formulas {
        found = either(found, widths_of(&formula.formula));
    }
    found
}

fn change_widths(change: &Change) -> Wide
    ensures { result ≡ width.wide_in_change change.now }
{
    match change {
        Change::BecomesEqual(_, values) => any(values.as_slice()),
        Change::BecomesEqualAt(_, argument, value) => either(widths_of(argument), widths_of(value)),
        Change::BecomesMember(_, set) => widths_of(set),
        Change::BecomesSuchThat(_, condition) => widths_of(condition),
    }
}

fn action_widths(actions: &[ModelAction]) -> Wide
    ensures { result ≡ width.each_wide width.wide_in_action actions.now }
{
    let mut found = narrow();
    for action in actions {
        found = either(found, change_widths(&action.change));
    }
    found
}

fn part_widths(part: &ModelPart) -> Wide
    ensures { result ≡ width.wide_in_part part.now }
{
    match part {
        ModelPart::Carrier(_, _) | ModelPart::Constant(_) | ModelPart::Variable(_) => narrow(),
        ModelPart::Axiom(formula) => widths_of(&formula.formula),
        ModelPart::Invariant(formula) => widths_of(&formula.formula),
        ModelPart::Event(event) => {
            let guards = labelled_widths(event.guards.as_slice());
            either(guards, action_widths(event.actions.as_slice()))
        }
    }
}

/// What is wider than a limit in the formulas of the model: a binder with more than 8 identifiers, a `partition` with more than
/// 64 sets behind the first.
pub fn too_wide(model: &EbModel) -> Wide
    ensures { result ≡ width.wide_in_model model.now }
{
    let mut found = narrow();
    for part in model.parts.as_slice() {
        found = either(found, part_widths(part));
    }
    found
}
