//! What the names of a text may stand for, in maps that find it at once.
ghost use Rattle.std.specs.Prelude.{[], ◌∷◌, ◌≡◌, ◌++◌, ◌||◌, ℕ, List, Bool, OnOk, IfOk, map, length, bytes_eq, filter, false};
ghost use Rattle.std.specs.List.{flat_map, list_any};
ghost use Rattle.eb_scoping.specs.FreeNames.{names_of, is_among};
ghost use Rattle.eb_lower.specs.Usages as spec;
ghost use Rattle.eb_lower.specs.steps.Facts as facts;
ghost use Rattle.eb_scoping.specs.Sets.{has_text};

use eb_scoping::{Groups, NameSet, context_places, grouped, insert_name, machine};
use eb_syntax::{Assignment, ContextClause, EbUnit, Event, Identifier, MachineClause};
use std::alloc::{AllocError, Global};
use std::collections::{BTreeMap, BTreeSet};

/// Places in lists of an event, by the names that stand there.
pub(crate) type Hints<'a> = BTreeMap<&'a str, usize>;

/// What is declared where.
#[derive(Drop)]
pub(crate) struct Facts<'a> {
    /// The names of all contexts.
    pub(crate) contexts: NameSet<'a>,
    /// The carrier sets of the model.
    pub(crate) carriers: NameSet<'a>,
    /// For each carrier set and constant of the model the places of the contexts that declare it.
    pub(crate) statics: Groups<'a>,
    /// The variables of the machine.
    pub(crate) variables: NameSet<'a>,
    /// The places of all contexts.
    pub(crate) places: Groups<'a>,
    /// By the name of an event and a name where in a list of the event it stands: a parameter among the parameters, an assigned
    /// variable left of its sign. Only a hint where to look first, so that no list is gone through for each of its names.
    pub(crate) hints: BTreeMap<&'a str, Hints<'a>>,
}

fn insert_names<'a>(names: &'a [Identifier], set: &mut NameSet<'a>) -> Result<(), AllocError>
    ensures { OnOk result ((q : List ℕ) → has_text set.new q ≡ (is_among (names_of names.now) q || has_text set.old q)) }
{
    for name in names {
        insert_name(set, name.name.as_str())?;
    }
    Ok(())
}

fn push_names<'a>(
    names: &'a [Identifier],
    place: usize,
    heads: &mut Vec<(&'a str, usize)>,
) -> Result<(), AllocError>
    ensures { OnOk result (facts.seen_heads heads.new.items ≡ facts.seen_heads heads.old.items ++ facts.heads_at place (names_of names.now)) }
{
    for name in names {
        heads.push((name.name.as_str(), place))?;
    }
    Ok(())
}

fn push_statics<'a>(
    clauses: &'a [ContextClause],
    place: usize,
    heads: &mut Vec<(&'a str, usize)>,
) -> Result<(), AllocError>
    ensures { OnOk result (facts.seen_heads heads.new.items ≡ facts.seen_heads heads.old.items ++ flat_map (λ c. facts.heads_at place (spec.clause_statics c)) clauses.now) }
{
    for clause in clauses {
        match clause {
            ContextClause::Sets(names) => push_names(names.as_slice(), place, heads)?,
            ContextClause::Constants(names) => push_names(names.as_slice(), place, heads)?,
            ContextClause::Axioms(_) => {}
        }
    }
    Ok(())
}

fn push_unit<'a>(
    unit: &'a EbUnit,
    is_marked: bool,
    place: usize,
    heads: &mut Vec<(&'a str, usize)>,
) -> Result<(), AllocError>
    ensures { OnOk result (facts.seen_heads heads.new.items ≡ facts.seen_heads heads.old.items ++ facts.static_heads unit.now is_marked place) }
{
    match unit {
        EbUnit::Context(context) if is_marked => {
            push_statics(context.clauses.as_slice(), place, heads)
        }
        EbUnit::Context(_) | EbUnit::Machine(_) | EbUnit::Scope(_) | EbUnit::Queries(_) => Ok(()),
    }
}

/// The places of the contexts of the model that declare each carrier set and constant.
fn statics<'a>(alloc: Global, units: &'a [EbUnit], marks: &[bool]) -> Result<Groups<'a>, AllocError>
    requires { length marks.now ≡ length units.now }
    ensures { IfOk result (λ m. facts.AreStatics units.now marks.now m) }
{
    let mut heads = Vec::new(alloc);
    for i in 0..units.len() {
        push_unit(&units[i], marks[i], i, &mut heads)?;
    }
    grouped(alloc, &heads)
}

/// The names of all contexts.
fn context_names<'a>(alloc: Global, units: &'a [EbUnit]) -> Result<NameSet<'a>, AllocError>
    ensures { IfOk result (λ set. (q : List ℕ) → has_text set q ≡ is_among (facts.context_names units.now) q) }
{
    let mut set = BTreeSet::new(alloc);
    for unit in units {
        if let EbUnit::Context(context) = unit {
            insert_name(&mut set, context.name.name.as_str())?;
        }
    }
    Ok(set)
}

fn insert_clause_carriers<'a>(
    clause: &'a ContextClause,
    set: &mut NameSet<'a>,
) -> Result<(), AllocError>
    ensures { OnOk result ((q : List ℕ) → has_text set.new q ≡ (is_among (spec.clause_carriers clause.now) q || has_text set.old q)) }
{
    match clause {
        ContextClause::Sets(names) => insert_names(names.as_slice(), set),
        ContextClause::Constants(_) | ContextClause::Axioms(_) => Ok(()),
    }
}

fn insert_carriers<'a>(
    clauses: &'a [ContextClause],
    set: &mut NameSet<'a>,
) -> Result<(), AllocError>
    ensures { OnOk result ((q : List ℕ) → has_text set.new q ≡ (is_among (flat_map spec.clause_carriers clauses.now) q || has_text set.old q)) }
{
    for clause in clauses {
        insert_clause_carriers(clause, set)?;
    }
    Ok(())
}

fn insert_unit_carriers<'a>(
    unit: &'a EbUnit,
    is_marked: bool,
    set: &mut NameSet<'a>,
) -> Result<(), AllocError>
    ensures { OnOk result ((q : List ℕ) → has_text set.new q ≡ (is_among (facts.unit_carriers is_marked unit.now) q || has_text set.old q)) }
{
    match unit {
        EbUnit::Context(context) if is_marked => insert_carriers(context.clauses.as_slice(), set),
        EbUnit::Context(_) | EbUnit::Machine(_) | EbUnit::Scope(_) | EbUnit::Queries(_) => Ok(()),
    }
}

/// The carrier sets of the model.
fn carriers<'a>(
    alloc: Global,
    units: &'a [EbUnit],
    marks: &[bool],
) -> Result<NameSet<'a>, AllocError>
    requires { length marks.now ≡ length units.now }
    ensures { IfOk result (λ set. (q : List ℕ) → has_text set q ≡ is_among (facts.all_carriers units.now marks.now) q) }
{
    let mut set = BTreeSet::new(alloc);
    for i in 0..units.len() {
        insert_unit_carriers(&units[i], marks[i], &mut set)?;
    }
    Ok(set)
}

fn insert_clause_variables<'a>(
    clause: &'a MachineClause,
    set: &mut NameSet<'a>,
) -> Result<(), AllocError>
    ensures { OnOk result ((q : List ℕ) → has_text set.new q ≡ (is_among (spec.clause_variables clause.now) q || has_text set.old q)) }
{
    match clause {
        MachineClause::Variables(names) => insert_names(names.as_slice(), set),
        MachineClause::Invariants(_) | MachineClause::Variant(_, _) | MachineClause::Events(_) => {
            Ok(())
        }
    }
}

fn insert_variables<'a>(
    clauses: &'a [MachineClause],
    set: &mut NameSet<'a>,
) -> Result<(), AllocError>
    ensures { OnOk result ((q : List ℕ) → has_text set.new q ≡ (is_among (flat_map spec.clause_variables clauses.now) q || has_text set.old q)) }
{
    for clause in clauses {
        insert_clause_variables(clause, set)?;
    }
    Ok(())
}

/// The variables of the machine.
fn variables<'a>(alloc: Global, units: &'a [EbUnit]) -> Result<NameSet<'a>, AllocError>
    ensures { IfOk result (λ set. (q : List ℕ) → has_text set q ≡ (is_among (facts.all_variables units.now) q || false)) }
{
    let mut set = BTreeSet::new(alloc);
    if let Some(machine) = machine(units) {
        insert_variables(machine.clauses.as_slice(), &mut set)?;
    }
    Ok(set)
}

/// Where in a list of the event the name may stand. No answer is a fact: who asks looks there.
pub(crate) fn hinted_place(facts: &Facts<'_>, event: &str, name: &str) -> usize {
    match facts.hints.get(event) {
        Some(places) => match places.get(name) {
            Some(place) => *place,
            None => 0,
        },
        None => 0,
    }
}

fn hint_names<'a>(names: &'a [Identifier], places: &mut Hints<'a>) -> Result<(), AllocError> {
    for i in 0..names.len() {
        places.insert(names[i].name.as_str(), i)?;
    }
    Ok(())
}

/// Where the parameters and the assigned variables of the event stand.
fn event_hints<'a>(alloc: Global, event: &'a Event) -> Result<Hints<'a>, AllocError> {
    let mut places = BTreeMap::new(alloc);
    if let Some(clause) = &event.parameters {
        hint_names(clause.names.as_slice(), &mut places)?;
    }
    for action in event.actions.as_slice() {
        if let Assignment::BecomesSuchThat(names, _) = &action.assignment {
            hint_names(names.as_slice(), &mut places)?;
        }
    }
    Ok(places)
}

fn hint_events<'a>(
    alloc: Global,
    events: &'a [Event],
    hints: &mut BTreeMap<&'a str, Hints<'a>>,
) -> Result<(), AllocError> {
    for event in events {
        let places = event_hints(alloc, event)?;
        hints.insert(event.name.name.as_str(), places)?;
    }
    Ok(())
}

/// The hints of all events of the machine.
fn hints<'a>(
    alloc: Global,
    units: &'a [EbUnit],
) -> Result<BTreeMap<&'a str, Hints<'a>>, AllocError> {
    let mut hints = BTreeMap::new(alloc);
    if let Some(machine) = machine(units) {
        for clause in machine.clauses.as_slice() {
            if let MachineClause::Events(events) = clause {
                hint_events(alloc, events.as_slice(), &mut hints)?;
            }
        }
    }
    Ok(hints)
}

/// What is declared in these units with their marks.
pub(crate) fn facts_of<'a>(
    alloc: Global,
    units: &'a [EbUnit],
    marks: &[bool],
) -> Result<Facts<'a>, AllocError>
    requires { length marks.now ≡ length units.now }
    ensures { IfOk result (λ f. facts.AreFacts units.now marks.now f) }
{
    Ok(Facts {
        contexts: context_names(alloc, units)?,
        carriers: carriers(alloc, units, marks)?,
        statics: statics(alloc, units, marks)?,
        variables: variables(alloc, units)?,
        places: context_places(alloc, units)?,
        hints: hints(alloc, units)?,
    })
}
