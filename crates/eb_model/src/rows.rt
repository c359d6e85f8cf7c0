//! Rows of formulas, of guards and of actions. The only error of each function is want of memory.
ghost use Rattle.std.specs.Prelude.{◌≡◌, IfOk, OnOk};
ghost use Rattle.eb_model.specs.Models as spec;
ghost use Rattle.eb_resolved.specs.Resolving.{resolved, entries_from};

use crate::model::{Change, LabelledFormula, ModelAction};
use eb_names::Name;
use eb_resolved::{Resolved, ResolvedNode, resolve};
use eb_syntax::{Action, Assignment, Ast, Identifier, LabelledPredicate};
use numbered_names::{Names, Scope};
use sqlite_items::Items;
use std::alloc::{AllocError, Global};

/// A formula behind its label.
pub(crate) fn labelled(
    alloc: Global,
    scope: &Scope,
    unit: &Name,
    predicate: &LabelledPredicate,
    names: &mut Names,
) -> Result<LabelledFormula, AllocError>
    ensures made { IfOk result (λ l. l ≡ (spec.labelled scope.now.entries unit.now predicate.now names.old).0) }
    ensures names { OnOk result (names.new ≡ (spec.labelled scope.now.entries unit.now predicate.now names.old).1) }
{
    let formula = resolve(alloc, scope, &predicate.predicate, names)?;
    let unit = unit.copied(alloc)?;
    let label = predicate.label.name.copied(alloc)?;
    Ok(LabelledFormula {
        unit,
        label,
        is_theorem: predicate.is_theorem,
        formula,
    })
}

pub(crate) fn all_labelled(
    alloc: Global,
    scope: &Scope,
    unit: &Name,
    predicates: &[LabelledPredicate],
    names: &mut Names,
) -> Result<Items<LabelledFormula>, AllocError>
    ensures made { IfOk result (λ ls. ls ≡ (spec.each_of (spec.labelled scope.now.entries unit.now) predicates.now names.old).0) }
    ensures names { OnOk result (names.new ≡ (spec.each_of (spec.labelled scope.now.entries unit.now) predicates.now names.old).1) }
{
    let mut all = Items::new(alloc);
    for predicate in predicates {
        let formula = labelled(alloc, scope, unit, predicate, names)?;
        all.push(formula)?;
    }
    Ok(all)
}

fn each(
    alloc: Global,
    scope: &Scope,
    formulas: &[Ast],
    names: &mut Names,
) -> Result<Items<Resolved>, AllocError>
    ensures made { IfOk result (λ rs. rs ≡ (spec.each_of (resolved scope.now.entries) formulas.now names.old).0) }
    ensures names { OnOk result (names.new ≡ (spec.each_of (resolved scope.now.entries) formulas.now names.old).1) }
{
    let mut all = Items::new(alloc);
    for formula in formulas {
        let formula = resolve(alloc, scope, formula, names)?;
        all.push(formula)?;
    }
    Ok(all)
}

/// A variable where it is assigned.
fn assigned(alloc: Global, scope: &Scope, identifier: &Identifier) -> Result<Resolved, AllocError>
    ensures { IfOk result (λ r. r ≡ spec.assigned scope.now.entries identifier.now) }
{
    let node = match scope.number_of(&identifier.name) {
        Some(number) => ResolvedNode::Identifier(number),
        None => ResolvedNode::Unknown(identifier.name.copied(alloc)?, false),
    };
    Ok(Resolved {
        node,
        place: identifier.place,
    })
}

fn all_assigned(
    alloc: Global,
    scope: &Scope,
    identifiers: &[Identifier],
) -> Result<Items<Resolved>, AllocError>
    ensures { IfOk result (λ rs. rs ≡ spec.all_assigned scope.now.entries identifiers.now) }
{
    let mut all = Items::new(alloc);
    for identifier in identifiers {
        all.push(assigned(alloc, scope, identifier)?)?;
    }
    Ok(all)
}

fn change(
    alloc: Global,
    scope: &Scope,
    assignment: &Assignment,
    names: &mut Names,
) -> Result<Change, AllocError>
    ensures made { IfOk result (λ c. c ≡ (spec.change_of scope.now.entries assignment.now names.old).0) }
    ensures names { OnOk result (names.new ≡ (spec.change_of scope.now.entries assignment.now names.old).1) }
{
    match assignment {
        Assignment::BecomesEqual(variables, values) => {
            let variables = all_assigned(alloc, scope, variables.as_slice())?;
            let values = each(alloc, scope, values.as_slice(), names)?;
            Ok(Change::BecomesEqual(variables, values))
        }
        Assignment::BecomesEqualAt(variable, argument, value) => {
            let variable = assigned(alloc, scope, variable)?;
            let argument = resolve(alloc, scope, argument, names)?;
            let value = resolve(alloc, scope, value, names)?;
            Ok(Change::BecomesEqualAt(variable, argument, value))
        }
        Assignment::BecomesMember(variable, set) => {
            let variable = assigned(alloc, scope, variable)?;
            let set = resolve(alloc, scope, set, names)?;
            Ok(Change::BecomesMember(variable, set))
        }
        Assignment::BecomesSuchThat(variables, condition) => {
            let variables = all_assigned(alloc, scope, variables.as_slice())?;
            let condition = resolve(alloc, scope, condition, names)?;
            Ok(Change::BecomesSuchThat(variables, condition))
        }
    }
}

fn action(
    alloc: Global,
    scope: &Scope,
    action: &Action,
    names: &mut Names,
) -> Result<ModelAction, AllocError>
    ensures made { IfOk result (λ a. a ≡ (spec.action_of scope.now.entries action.now names.old).0) }
    ensures names { OnOk result (names.new ≡ (spec.action_of scope.now.entries action.now names.old).1) }
{
    let change = change(alloc, scope, &action.assignment, names)?;
    let label = action.label.name.copied(alloc)?;
    Ok(ModelAction { label, change })
}

pub(crate) fn actions(
    alloc: Global,
    scope: &Scope,
    actions: &[Action],
    names: &mut Names,
) -> Result<Items<ModelAction>, AllocError>
    ensures made { IfOk result (λ all. all ≡ (spec.each_of (spec.action_of scope.now.entries) actions.now names.old).0) }
    ensures names { OnOk result (names.new ≡ (spec.each_of (spec.action_of scope.now.entries) actions.now names.old).1) }
{
    let mut all = Items::new(alloc);
    for one in actions {
        let one = action(alloc, scope, one, names)?;
        all.push(one)?;
    }
    Ok(all)
}
