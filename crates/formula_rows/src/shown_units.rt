use super::writing::{put_at, put_name, put_number, put_pair};
use eb_names::Name;
use eb_syntax::{
    Action, Assignment, Ast, Context, ContextClause, EbUnit, Event, Goal, Identifier, Inheritance,
    Label, LabelledPredicate, Machine, MachineClause, NamesClause, PredicatesClause, Query,
    ScopeBlock, ScopeSetting,
};
use std::alloc::AllocError;

fn show_name(name: &Identifier, out: &mut String) -> Result<(), AllocError> {
    out.push(' ')?;
    put_at(name.name.as_str(), name.place, out)
}

fn show_names(names: &[Identifier], out: &mut String) -> Result<(), AllocError> {
    for name in names {
        show_name(name, out)?;
    }
    Ok(())
}

fn show_bare(names: &[Name], out: &mut String) -> Result<(), AllocError> {
    for name in names {
        put_pair(" ", name.as_str(), out)?;
    }
    Ok(())
}

fn show_label(label: &Label, out: &mut String) -> Result<(), AllocError> {
    out.push(' ')?;
    put_at(label.name.as_str(), label.place, out)
}

fn show_formula(ast: &Ast, out: &mut String) -> Result<(), AllocError> {
    put_at(" F", ast.place, out)
}

fn show_formulas(asts: &[Ast], out: &mut String) -> Result<(), AllocError> {
    for ast in asts {
        show_formula(ast, out)?;
    }
    Ok(())
}

fn show_predicates(predicates: &[LabelledPredicate], out: &mut String) -> Result<(), AllocError> {
    for predicate in predicates {
        if predicate.is_theorem {
            out.push_str(" theorem")?;
        }
        show_label(&predicate.label, out)?;
        show_formula(&predicate.predicate, out)?;
    }
    Ok(())
}

fn show_named(word: &str, names: &[Identifier], out: &mut String) -> Result<(), AllocError> {
    out.push_str(word)?;
    show_names(names, out)
}

fn show_stated(
    word: &str,
    predicates: &[LabelledPredicate],
    out: &mut String,
) -> Result<(), AllocError> {
    out.push_str(word)?;
    show_predicates(predicates, out)
}

fn show_context_clause(clause: &ContextClause, out: &mut String) -> Result<(), AllocError> {
    match clause {
        ContextClause::Sets(names) => show_named(" sets", names.as_slice(), out),
        ContextClause::Constants(names) => show_named(" constants", names.as_slice(), out),
        ContextClause::Axioms(axioms) => show_stated(" axioms", axioms.as_slice(), out),
    }
}

fn show_context(context: &Context, out: &mut String) -> Result<(), AllocError> {
    out.push_str("context")?;
    show_name(&context.name, out)?;
    show_named(" extends", context.extends.as_slice(), out)?;
    for clause in context.clauses.as_slice() {
        show_context_clause(clause, out)?;
    }
    Ok(())
}

fn show_names_part(word: &str, clause: &NamesClause, out: &mut String) -> Result<(), AllocError> {
    put_at(word, clause.place, out)?;
    show_names(clause.names.as_slice(), out)
}

fn show_predicates_part(
    word: &str,
    clause: &Option<PredicatesClause>,
    out: &mut String,
) -> Result<(), AllocError> {
    match clause {
        Some(clause) => {
            put_at(word, clause.place, out)?;
            show_predicates(clause.predicates.as_slice(), out)
        }
        None => Ok(()),
    }
}

fn show_values(word: &str, values: &[Ast], out: &mut String) -> Result<(), AllocError> {
    out.push_str(word)?;
    show_formulas(values, out)
}

fn show_override(
    name: &Identifier,
    argument: &Ast,
    value: &Ast,
    out: &mut String,
) -> Result<(), AllocError> {
    show_name(name, out)?;
    put_at(" (F", argument.place, out)?;
    put_at(") := F", value.place, out)
}

fn show_assignment(assignment: &Assignment, out: &mut String) -> Result<(), AllocError> {
    match assignment {
        Assignment::BecomesEqual(names, values) => {
            show_names(names.as_slice(), out)?;
            show_values(" :=", values.as_slice(), out)
        }
        Assignment::BecomesEqualAt(name, argument, value) => {
            show_override(name, argument, value, out)
        }
        Assignment::BecomesMember(name, set) => {
            show_name(name, out)?;
            put_at(" :: F", set.place, out)
        }
        Assignment::BecomesSuchThat(names, condition) => {
            show_names(names.as_slice(), out)?;
            put_at(" :| F", condition.place, out)
        }
    }
}

fn show_actions(actions: &[Action], out: &mut String) -> Result<(), AllocError> {
    out.push_str(" do")?;
    for action in actions {
        show_label(&action.label, out)?;
        show_assignment(&action.assignment, out)?;
    }
    Ok(())
}

fn show_event_head(event: &Event, out: &mut String) -> Result<(), AllocError> {
    match event.convergence {
        Some(convergence) => put_name(" ", convergence, out)?,
        None => out.push_str(" plain")?,
    }
    show_name(&event.name, out)?;
    match &event.inheritance {
        Some(Inheritance::Refines(clause)) => show_names_part(" refines", clause, out),
        Some(Inheritance::Extends(clause)) => show_names_part(" extends", clause, out),
        None => Ok(()),
    }
}

fn show_event(event: &Event, out: &mut String) -> Result<(), AllocError> {
    show_event_head(event, out)?;
    if let Some(parameters) = &event.parameters {
        show_names_part(" any", parameters, out)?;
    }
    show_predicates_part(" where", &event.guards, out)?;
    show_predicates_part(" with", &event.witnesses, out)?;
    show_actions(event.actions.as_slice(), out)
}

fn show_events(events: &[Event], out: &mut String) -> Result<(), AllocError> {
    out.push_str(" events")?;
    for event in events {
        show_event(event, out)?;
    }
    Ok(())
}

fn show_machine_clause(clause: &MachineClause, out: &mut String) -> Result<(), AllocError> {
    match clause {
        MachineClause::Variables(names) => show_named(" variables", names.as_slice(), out),
        MachineClause::Invariants(invariants) => {
            show_stated(" invariants", invariants.as_slice(), out)
        }
        MachineClause::Variant(_, value) => put_at(" variant F", value.place, out),
        MachineClause::Events(events) => show_events(events.as_slice(), out),
    }
}

fn show_machine(machine: &Machine, out: &mut String) -> Result<(), AllocError> {
    put_at("machine", machine.place, out)?;
    show_name(&machine.name, out)?;
    if let Some(refinement) = &machine.refines {
        put_at(" refines", refinement.place, out)?;
        show_name(&refinement.machine, out)?;
    }
    show_named(" sees", machine.sees.as_slice(), out)?;
    for clause in machine.clauses.as_slice() {
        show_machine_clause(clause, out)?;
    }
    Ok(())
}

fn show_setting(setting: &ScopeSetting, out: &mut String) -> Result<(), AllocError> {
    match setting {
        ScopeSetting::Integers(place, lo, hi) => {
            put_at(" int", *place, out)?;
            put_number(" ", *lo, out)?;
            put_number("..", *hi, out)
        }
        ScopeSetting::Size(set, size) => {
            out.push_str(" size")?;
            show_name(set, out)?;
            put_number(" ", *size, out)
        }
        ScopeSetting::Depth(place, depth) => {
            put_at(" depth", *place, out)?;
            put_number(" ", *depth, out)
        }
    }
}

fn show_scope(scope: &ScopeBlock, out: &mut String) -> Result<(), AllocError> {
    put_at("scope", scope.place, out)?;
    for setting in scope.settings.as_slice() {
        show_setting(setting, out)?;
    }
    Ok(())
}

fn show_goal(goal: &Goal, out: &mut String) -> Result<(), AllocError> {
    match goal {
        Goal::Take(event) => put_pair(" take ", event.as_str(), out),
        Goal::False(event, guard) => {
            put_pair(" false ", event.as_str(), out)?;
            put_number(" ", *guard, out)
        }
    }
}

fn show_target(word: &str, name: &Name, label: &Name, out: &mut String) -> Result<(), AllocError> {
    put_pair(word, name.as_str(), out)?;
    put_pair(" ", label.as_str(), out)
}

fn show_steps(word: &str, events: &[Name], out: &mut String) -> Result<(), AllocError> {
    out.push_str(word)?;
    show_bare(events, out)
}

fn show_query(query: &Query, out: &mut String) -> Result<(), AllocError> {
    match query {
        Query::Axioms => out.push_str(" axioms"),
        Query::Enabled(event) => put_pair(" enabled ", event.as_str(), out),
        Query::Invariant(event, label) => show_target(" invariant ", event, label, out),
        Query::Deadlock => out.push_str(" deadlock"),
        Query::Sequence(events) => show_steps(" sequence", events.as_slice(), out),
        Query::WellDefined(unit, label) => show_target(" wd ", unit, label, out),
        Query::Theorem(unit, label) => show_target(" theorem ", unit, label, out),
        Query::Goal(events, goal) => {
            show_steps(" goal", events.as_slice(), out)?;
            show_goal(goal, out)
        }
    }
}

fn show_queries(queries: &[Query], out: &mut String) -> Result<(), AllocError> {
    out.push_str("queries")?;
    for query in queries {
        show_query(query, out)?;
    }
    Ok(())
}

/// A unit in words: each name and label with its place, a formula as F and its place, and each other place behind its word.
pub(crate) fn show_unit(unit: &EbUnit, out: &mut String) -> Result<(), AllocError> {
    match unit {
        EbUnit::Context(context) => show_context(context, out),
        EbUnit::Machine(machine) => show_machine(machine, out),
        EbUnit::Scope(scope) => show_scope(scope, out),
        EbUnit::Queries(queries) => show_queries(queries.as_slice(), out),
    }
}
