//! The equations of a model, part by part. The only error of each function is want of memory.
ghost use Rattle.std.specs.Prelude.{◌≡◌, OnOk, fold};
ghost use Rattle.eb_typing.specs.steps.Generating as spec;
ghost use Rattle.eb_typing.specs.steps.Demanding as model;
ghost use Rattle.eb_typing.specs.Numbering.{numbered};
ghost use Rattle.eb_typing.specs.Models as owed;

use crate::generated::Generated;
use crate::walk::{typed, unknown, walk};
use eb_model::{Change, LabelledFormula, ModelAction, ModelEvent, ModelPart};
use eb_resolved::Resolved;
use std::alloc::{AllocError, Global};
use type_table::{assignment_at_row, assignment_row, carrier_row, choice_row};

/// A carrier set: how many stand before it, and the number of its identifier.
fn carrier(asked: u32, place: u32, number: u32, out: &mut Generated) -> Result<(), AllocError>
    ensures { OnOk result (out.new ≡ spec.demanded asked (owed.is_carrier place number) out.old) }
{
    let part = typed(asked, number, out)?;
    let found = out.unary(carrier_row(place), part)?;
    out.demand(found)
}

/// The formula is a predicate.
fn predicate(
    alloc: Global,
    asked: u32,
    formula: &Resolved,
    out: &mut Generated,
) -> Result<(), AllocError>
    ensures { OnOk result (out.new ≡ spec.demanded asked (numbered formula.now) out.old) }
{
    let found = walk(alloc, asked, formula, out)?;
    out.demand(found)
}

fn guards(
    alloc: Global,
    asked: u32,
    guards: &[LabelledFormula],
    out: &mut Generated,
) -> Result<(), AllocError>
    ensures { OnOk result (out.new ≡ fold (model.formula asked) out.old guards.now) }
{
    for guard in guards {
        predicate(alloc, asked, &guard.formula, out)?;
    }
    Ok(())
}

/// Nothing is a predicate here.
fn no_predicate(out: &mut Generated) -> Result<(), AllocError>
    ensures { OnOk result (out.new ≡ model.no_predicate out.old) }
{
    let found = unknown(out)?;
    out.demand(found)
}

/// `x := E`
fn assigned(
    alloc: Global,
    asked: u32,
    variable: &Resolved,
    value: &Resolved,
    out: &mut Generated,
) -> Result<(), AllocError>
    ensures { OnOk result (out.new ≡ model.assigned asked variable.now value.now out.old) }
{
    let variable = walk(alloc, asked, variable, out)?;
    let value = walk(alloc, asked, value, out)?;
    let found = out.binary(assignment_row(), variable, value)?;
    out.demand(found)
}

/// `x, y := E, F`
fn becomes_equal(
    alloc: Global,
    asked: u32,
    variables: &[Resolved],
    values: &[Resolved],
    out: &mut Generated,
) -> Result<(), AllocError>
    ensures { OnOk result (out.new ≡ model.becomes_equal asked variables.now values.now out.old) }
{
    let mut rest = values;
    for variable in variables {
        let Some((value, others)) = rest.split_first() else {
            return no_predicate(out);
        };
        assigned(alloc, asked, variable, value, out)?;
        rest = others;
    }
    if rest.is_empty() {
        Ok(())
    } else {
        no_predicate(out)
    }
}

/// `f(E) := F`
fn becomes_equal_at(
    alloc: Global,
    asked: u32,
    variable: &Resolved,
    argument: &Resolved,
    value: &Resolved,
    out: &mut Generated,
) -> Result<(), AllocError>
    ensures { OnOk result (out.new ≡ model.becomes_equal_at asked variable.now argument.now value.now out.old) }
{
    let variable = walk(alloc, asked, variable, out)?;
    let argument = walk(alloc, asked, argument, out)?;
    let value = walk(alloc, asked, value, out)?;
    let found = out.ternary(assignment_at_row(), variable, argument, value)?;
    out.demand(found)
}

/// `x :: S`
fn becomes_member(
    alloc: Global,
    asked: u32,
    variable: &Resolved,
    set: &Resolved,
    out: &mut Generated,
) -> Result<(), AllocError>
    ensures { OnOk result (out.new ≡ model.becomes_member asked variable.now set.now out.old) }
{
    let variable = walk(alloc, asked, variable, out)?;
    let set = walk(alloc, asked, set, out)?;
    let found = out.binary(choice_row(), variable, set)?;
    out.demand(found)
}

fn change(alloc: Global, asked: u32, change: &Change, out: &mut Generated) -> Result<(), AllocError>
    ensures { OnOk result (out.new ≡ model.changed asked change.now out.old) }
{
    match change {
        Change::BecomesEqual(variables, values) => {
            becomes_equal(alloc, asked, variables.as_slice(), values.as_slice(), out)
        }
        Change::BecomesEqualAt(variable, argument, value) => {
            becomes_equal_at(alloc, asked, variable, argument, value, out)
        }
        Change::BecomesMember(variable, set) => becomes_member(alloc, asked, variable, set, out),
        Change::BecomesSuchThat(_, condition) => predicate(alloc, asked, condition, out),
    }
}

fn actions(
    alloc: Global,
    asked: u32,
    actions: &[ModelAction],
    out: &mut Generated,
) -> Result<(), AllocError>
    ensures { OnOk result (out.new ≡ fold (model.action asked) out.old actions.now) }
{
    for action in actions {
        change(alloc, asked, &action.change, out)?;
    }
    Ok(())
}

fn event(
    alloc: Global,
    asked: u32,
    event: &ModelEvent,
    out: &mut Generated,
) -> Result<(), AllocError>
    ensures { OnOk result (out.new ≡ model.event asked event.now out.old) }
{
    guards(alloc, asked, event.guards.as_slice(), out)?;
    actions(alloc, asked, event.actions.as_slice(), out)
}

fn part(alloc: Global, asked: u32, part: &ModelPart, out: &mut Generated) -> Result<(), AllocError>
    ensures { OnOk result (out.new ≡ model.one_part asked out.old part.now) }
{
    match part {
        ModelPart::Carrier(place, entry) => carrier(asked, *place, entry.number, out),
        ModelPart::Constant(_) | ModelPart::Variable(_) => Ok(()),
        ModelPart::Axiom(labelled) | ModelPart::Invariant(labelled) => {
            predicate(alloc, asked, &labelled.formula, out)
        }
        ModelPart::Event(one) => event(alloc, asked, one, out),
    }
}

/// The equations of the parts of a model.
pub(crate) fn parts(
    alloc: Global,
    asked: u32,
    parts: &[ModelPart],
    out: &mut Generated,
) -> Result<(), AllocError>
    ensures { OnOk result (out.new ≡ fold (model.one_part asked) out.old parts.now) }
{
    for one in parts {
        part(alloc, asked, one, out)?;
    }
    Ok(())
}
