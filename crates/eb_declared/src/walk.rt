//! The parts of the units of a text, in its order.
ghost use Rattle.std.specs.Prelude.{[], ◌∷◌, ◌≡◌, ◌++◌, OnOk, IfOk, map, length};
ghost use Rattle.std.specs.List.{flat_map};
ghost use Rattle.eb_scoping.specs.FreeNames.{names_of};
ghost use Rattle.eb_declared.specs.Parts as spec;
ghost use Rattle.eb_declared.specs.Seen as seen;

use crate::part::{Part, Position, Space};
use eb_names::Name;
use eb_syntax::{
    Action, Assignment, Ast, Context, ContextClause, EbUnit, Event, Identifier, LabelledPredicate,
    Machine, MachineClause, NamesClause, PredicatesClause, ScopeBlock, ScopeSetting,
};
use std::alloc::{AllocError, Global};

fn push_declared<'a>(
    space: Space<'a>,
    name: &'a str,
    out: &mut Vec<Part<'a>>,
) -> Result<(), AllocError>
    ensures { OnOk result (map seen.part out.new.items ≡ map seen.part out.old.items ++ spec.declares (seen.space space.entry) name.now ∷ []) }
{
    out.push(Part::Declared(space, name))?;
    Ok(())
}

fn push_used<'a>(
    position: Position<'a>,
    name: &'a Name,
    out: &mut Vec<Part<'a>>,
) -> Result<(), AllocError>
    ensures { OnOk result (map seen.part out.new.items ≡ map seen.part out.old.items ++ spec.uses (seen.position position.entry) name.now ∷ []) }
{
    out.push(Part::Used(position, name))?;
    Ok(())
}

fn push_formula<'a>(
    position: Position<'a>,
    formula: &'a Ast,
    out: &mut Vec<Part<'a>>,
) -> Result<(), AllocError>
    ensures { OnOk result (map seen.part out.new.items ≡ map seen.part out.old.items ++ spec.formula (seen.position position.entry) formula.now ∷ []) }
{
    out.push(Part::Formula(position, formula))?;
    Ok(())
}

fn push_all_declared<'a>(
    space: Space<'a>,
    names: &'a [Identifier],
    out: &mut Vec<Part<'a>>,
) -> Result<(), AllocError>
    ensures { OnOk result (map seen.part out.new.items ≡ map seen.part out.old.items ++ spec.all_declared (seen.space space.entry) (names_of names.now)) }
{
    for name in names {
        push_declared(space, name.name.as_str(), out)?;
    }
    Ok(())
}

fn push_all_used<'a>(
    position: Position<'a>,
    names: &'a [Identifier],
    out: &mut Vec<Part<'a>>,
) -> Result<(), AllocError>
    ensures { OnOk result (map seen.part out.new.items ≡ map seen.part out.old.items ++ spec.all_used (seen.position position.entry) (names_of names.now)) }
{
    for name in names {
        push_used(position, &name.name, out)?;
    }
    Ok(())
}

fn push_formulas<'a>(
    event: &'a Event,
    formulas: &'a [Ast],
    out: &mut Vec<Part<'a>>,
) -> Result<(), AllocError>
    ensures { OnOk result (map seen.part out.new.items ≡ map seen.part out.old.items ++ map (spec.formula (spec.in_event event.now [])) formulas.now) }
{
    for formula in formulas {
        push_formula(Position::Event(event, &[]), formula, out)?;
    }
    Ok(())
}

fn push_labelled<'a>(
    space: Space<'a>,
    position: Position<'a>,
    labelled: &'a LabelledPredicate,
    out: &mut Vec<Part<'a>>,
) -> Result<(), AllocError>
    ensures { OnOk result (map seen.part out.new.items ≡ map seen.part out.old.items ++ spec.labelled_parts (seen.space space.entry) (seen.position position.entry) labelled.now) }
{
    push_declared(space, labelled.label.name.as_str(), out)?;
    push_formula(position, &labelled.predicate, out)
}

fn push_all_labelled<'a>(
    space: Space<'a>,
    position: Position<'a>,
    predicates: &'a [LabelledPredicate],
    out: &mut Vec<Part<'a>>,
) -> Result<(), AllocError>
    ensures { OnOk result (map seen.part out.new.items ≡ map seen.part out.old.items ++ flat_map (spec.labelled_parts (seen.space space.entry) (seen.position position.entry)) predicates.now) }
{
    for labelled in predicates {
        push_labelled(space, position, labelled, out)?;
    }
    Ok(())
}

fn push_context_clause<'a>(
    context: &'a Context,
    clause: &'a ContextClause,
    out: &mut Vec<Part<'a>>,
) -> Result<(), AllocError>
    ensures { OnOk result (map seen.part out.new.items ≡ map seen.part out.old.items ++ spec.context_clause_parts context.now clause.now) }
{
    match clause {
        ContextClause::Sets(names) => push_all_declared(Space::Model, names.as_slice(), out),
        ContextClause::Constants(names) => push_all_declared(Space::Model, names.as_slice(), out),
        ContextClause::Axioms(axioms) => {
            let space = Space::Axioms(context.name.name.as_str());
            push_all_labelled(space, Position::Axiom(context), axioms.as_slice(), out)
        }
    }
}

fn push_context_clauses<'a>(
    context: &'a Context,
    clauses: &'a [ContextClause],
    out: &mut Vec<Part<'a>>,
) -> Result<(), AllocError>
    ensures { OnOk result (map seen.part out.new.items ≡ map seen.part out.old.items ++ flat_map (spec.context_clause_parts context.now) clauses.now) }
{
    for clause in clauses {
        push_context_clause(context, clause, out)?;
    }
    Ok(())
}

fn push_parameters<'a>(
    event: &'a str,
    clause: &'a Option<NamesClause>,
    out: &mut Vec<Part<'a>>,
) -> Result<(), AllocError>
    ensures { OnOk result (map seen.part out.new.items ≡ map seen.part out.old.items ++ spec.all_declared (spec.space_parameters event.now) (spec.parameter_names clause.now)) }
{
    match clause {
        Some(clause) => push_all_declared(Space::Parameters(event), clause.names.as_slice(), out),
        None => Ok(()),
    }
}

fn push_predicates<'a>(
    event: &'a Event,
    predicates: &'a [LabelledPredicate],
    out: &mut Vec<Part<'a>>,
) -> Result<(), AllocError>
    ensures { OnOk result (map seen.part out.new.items ≡ map seen.part out.old.items ++ map (λ p. spec.formula (spec.in_event event.now []) p.predicate) predicates.now) }
{
    for labelled in predicates {
        push_formula(Position::Event(event, &[]), &labelled.predicate, out)?;
    }
    Ok(())
}

fn push_guards<'a>(
    event: &'a Event,
    clause: &'a Option<PredicatesClause>,
    out: &mut Vec<Part<'a>>,
) -> Result<(), AllocError>
    ensures { OnOk result (map seen.part out.new.items ≡ map seen.part out.old.items ++ spec.guard_parts event.now clause.now) }
{
    match clause {
        Some(clause) => push_predicates(event, clause.predicates.as_slice(), out),
        None => Ok(()),
    }
}

fn push_assigned<'a>(
    event: &'a Event,
    position: Position<'a>,
    name: &'a Identifier,
    out: &mut Vec<Part<'a>>,
) -> Result<(), AllocError>
    ensures { OnOk result (map seen.part out.new.items ≡ map seen.part out.old.items ++ spec.assigned_parts event.now (seen.position position.entry) name.now) }
{
    push_declared(
        Space::Assigned(event.name.name.as_str()),
        name.name.as_str(),
        out,
    )?;
    push_used(position, &name.name, out)
}

fn push_all_assigned<'a>(
    event: &'a Event,
    names: &'a [Identifier],
    out: &mut Vec<Part<'a>>,
) -> Result<(), AllocError>
    ensures { OnOk result (map seen.part out.new.items ≡ map seen.part out.old.items ++ spec.all_assigned event.now names.now) }
{
    for name in names {
        push_assigned(event, Position::Assigned, name, out)?;
    }
    Ok(())
}

fn push_assignment<'a>(
    event: &'a Event,
    assignment: &'a Assignment,
    out: &mut Vec<Part<'a>>,
) -> Result<(), AllocError>
    ensures { OnOk result (map seen.part out.new.items ≡ map seen.part out.old.items ++ spec.assignment_parts event.now assignment.now) }
{
    match assignment {
        Assignment::BecomesEqual(names, values) => {
            push_all_assigned(event, names.as_slice(), out)?;
            push_formulas(event, values.as_slice(), out)
        }
        Assignment::BecomesEqualAt(name, argument, value) => {
            push_assigned(event, Position::Changed(event), name, out)?;
            push_formula(Position::Event(event, &[]), argument, out)?;
            push_formula(Position::Event(event, &[]), value, out)
        }
        Assignment::BecomesMember(name, set) => {
            push_assigned(event, Position::Assigned, name, out)?;
            push_formula(Position::Event(event, &[]), set, out)
        }
        Assignment::BecomesSuchThat(names, condition) => {
            push_all_assigned(event, names.as_slice(), out)?;
            push_formula(Position::Event(event, names.as_slice()), condition, out)
        }
    }
}

fn push_actions<'a>(
    event: &'a Event,
    actions: &'a [Action],
    out: &mut Vec<Part<'a>>,
) -> Result<(), AllocError>
    ensures { OnOk result (map seen.part out.new.items ≡ map seen.part out.old.items ++ flat_map (λ a. spec.assignment_parts event.now a.assignment) actions.now) }
{
    for action in actions {
        push_assignment(event, &action.assignment, out)?;
    }
    Ok(())
}

fn push_event<'a>(event: &'a Event, out: &mut Vec<Part<'a>>) -> Result<(), AllocError>
    ensures { OnOk result (map seen.part out.new.items ≡ map seen.part out.old.items ++ spec.event_parts event.now) }
{
    let name = event.name.name.as_str();
    push_declared(Space::Events, name, out)?;
    push_parameters(name, &event.parameters, out)?;
    push_guards(event, &event.guards, out)?;
    push_actions(event, event.actions.as_slice(), out)
}

fn push_events<'a>(events: &'a [Event], out: &mut Vec<Part<'a>>) -> Result<(), AllocError>
    ensures { OnOk result (map seen.part out.new.items ≡ map seen.part out.old.items ++ flat_map spec.event_parts events.now) }
{
    for event in events {
        push_event(event, out)?;
    }
    Ok(())
}

fn push_machine_clause<'a>(
    clause: &'a MachineClause,
    out: &mut Vec<Part<'a>>,
) -> Result<(), AllocError>
    ensures { OnOk result (map seen.part out.new.items ≡ map seen.part out.old.items ++ spec.machine_clause_parts clause.now) }
{
    match clause {
        MachineClause::Variables(names) => push_all_declared(Space::Model, names.as_slice(), out),
        MachineClause::Invariants(invariants) => {
            let invariants = invariants.as_slice();
            push_all_labelled(Space::Invariants, Position::Invariant, invariants, out)
        }
        MachineClause::Variant(_, _) => Ok(()),
        MachineClause::Events(events) => push_events(events.as_slice(), out),
    }
}

fn push_machine_clauses<'a>(
    clauses: &'a [MachineClause],
    out: &mut Vec<Part<'a>>,
) -> Result<(), AllocError>
    ensures { OnOk result (map seen.part out.new.items ≡ map seen.part out.old.items ++ flat_map spec.machine_clause_parts clauses.now) }
{
    for clause in clauses {
        push_machine_clause(clause, out)?;
    }
    Ok(())
}

fn push_setting<'a>(setting: &'a ScopeSetting, out: &mut Vec<Part<'a>>) -> Result<(), AllocError>
    ensures { OnOk result (map seen.part out.new.items ≡ map seen.part out.old.items ++ spec.setting_parts setting.now) }
{
    match setting {
        ScopeSetting::Integers(_, _, _) => push_declared(Space::Words, "int", out),
        ScopeSetting::Size(set, _) => {
            push_declared(Space::Sizes, set.name.as_str(), out)?;
            push_used(Position::Size, &set.name, out)
        }
        ScopeSetting::Depth(_, _) => push_declared(Space::Words, "depth", out),
    }
}

fn push_settings<'a>(
    settings: &'a [ScopeSetting],
    out: &mut Vec<Part<'a>>,
) -> Result<(), AllocError>
    ensures { OnOk result (map seen.part out.new.items ≡ map seen.part out.old.items ++ flat_map spec.setting_parts settings.now) }
{
    for setting in settings {
        push_setting(setting, out)?;
    }
    Ok(())
}

fn push_context<'a>(
    context: &'a Context,
    is_marked: bool,
    out: &mut Vec<Part<'a>>,
) -> Result<(), AllocError>
    ensures { OnOk result (map seen.part out.new.items ≡ map seen.part out.old.items ++ spec.context_parts is_marked context.now) }
{
    push_declared(Space::Units, context.name.name.as_str(), out)?;
    if !is_marked {
        return Ok(());
    }
    push_all_used(Position::Context, context.extends.as_slice(), out)?;
    push_context_clauses(context, context.clauses.as_slice(), out)
}

fn push_machine<'a>(
    machine: &'a Machine,
    is_marked: bool,
    out: &mut Vec<Part<'a>>,
) -> Result<(), AllocError>
    ensures { OnOk result (map seen.part out.new.items ≡ map seen.part out.old.items ++ spec.machine_parts is_marked machine.now) }
{
    push_declared(Space::Words, "machine", out)?;
    push_declared(Space::Units, machine.name.name.as_str(), out)?;
    if !is_marked {
        return Ok(());
    }
    push_all_used(Position::Context, machine.sees.as_slice(), out)?;
    push_machine_clauses(machine.clauses.as_slice(), out)
}

fn push_scope<'a>(scope: &'a ScopeBlock, out: &mut Vec<Part<'a>>) -> Result<(), AllocError>
    ensures { OnOk result (map seen.part out.new.items ≡ map seen.part out.old.items ++ spec.scope_parts scope.now) }
{
    push_declared(Space::Words, "scope", out)?;
    push_settings(scope.settings.as_slice(), out)
}

fn push_unit<'a>(
    unit: &'a EbUnit,
    is_marked: bool,
    out: &mut Vec<Part<'a>>,
) -> Result<(), AllocError>
    ensures { OnOk result (map seen.part out.new.items ≡ map seen.part out.old.items ++ spec.unit_parts is_marked unit.now) }
{
    match unit {
        EbUnit::Context(context) => push_context(context, is_marked, out),
        EbUnit::Machine(machine) => push_machine(machine, is_marked, out),
        EbUnit::Scope(scope) => push_scope(scope, out),
        EbUnit::Queries(_) => Ok(()),
    }
}

/// The parts of these units with their marks, which are as many: of contexts and machines without a mark their names alone. The only
/// error is want of memory.
pub fn parts<'a>(
    alloc: Global,
    units: &'a [EbUnit],
    marks: &[bool],
) -> Result<Vec<Part<'a>>, AllocError>
    requires { length marks.now ≡ length units.now }
    ensures { IfOk result (λ found. map seen.part found.items ≡ spec.parts units.now marks.now) }
{
    let mut found = Vec::new(alloc);
    for i in 0..units.len() {
        push_unit(&units[i], marks[i], &mut found)?;
    }
    Ok(found)
}
