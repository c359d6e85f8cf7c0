//! What a text may have and no model of this program can.
ghost use Rattle.std.specs.Prelude.{◌≡◌, ◌++◌};
ghost use Rattle.std.specs.List.{flat_map};
ghost use Rattle.eb_lower.specs.Unsupported as spec;

use eb_names::Name;
use eb_syntax::{
    EbUnit, Event, Inheritance, Machine, MachineClause, NamesClause, PredicatesClause, Refinement,
};

/// Whether this is the event that gives the variables their first values.
pub(crate) fn is_initialisation(event: &Event) -> bool
    ensures { result ≡ spec.is_initialisation event.now }
{
    event.name.name.as_str() == "INITIALISATION"
}

fn inheritance_place(inheritance: &Option<Inheritance>) -> Option<u32>
    ensures { spec.IsFirstOf (spec.inheritance_places inheritance.now) result }
{
    match inheritance {
        Some(Inheritance::Refines(clause)) => Some(clause.place),
        Some(Inheritance::Extends(clause)) => Some(clause.place),
        None => None,
    }
}

fn names_place(clause: &Option<NamesClause>) -> Option<u32>
    ensures { spec.IsFirstOf (spec.names_places clause.now) result }
{
    match clause {
        Some(clause) => Some(clause.place),
        None => None,
    }
}

fn predicates_place(clause: &Option<PredicatesClause>) -> Option<u32>
    ensures { spec.IsFirstOf (spec.predicates_places clause.now) result }
{
    match clause {
        Some(clause) => Some(clause.place),
        None => None,
    }
}

fn refinement_place(refinement: &Option<Refinement>) -> Option<u32>
    ensures { spec.IsFirstOf (spec.refinement_places refinement.now) result }
{
    match refinement {
        Some(refinement) => Some(refinement.place),
        None => None,
    }
}

/// Of the parameters and guards of INITIALISATION the first place.
fn start_place(event: &Event) -> Option<u32>
    ensures { spec.IsFirstOf (spec.start_places event.now) result }
{
    if !is_initialisation(event) {
        return None;
    }
    match names_place(&event.parameters) {
        Some(place) => Some(place),
        None => predicates_place(&event.guards),
    }
}

fn later_place(event: &Event) -> Option<u32>
    ensures { spec.IsFirstOf (spec.start_places event.now ++ spec.predicates_places event.now.witnesses) result }
{
    match start_place(event) {
        Some(place) => Some(place),
        None => predicates_place(&event.witnesses),
    }
}

fn event_place(event: &Event) -> Option<u32>
    ensures { spec.IsFirstOf (spec.event_places event.now) result }
{
    match inheritance_place(&event.inheritance) {
        Some(place) => Some(place),
        None => later_place(event),
    }
}

fn events_place(events: &[Event]) -> Option<u32>
    ensures { spec.IsFirstOf (flat_map spec.event_places events.now) result }
{
    for event in events {
        if let Some(place) = event_place(event) {
            return Some(place);
        }
    }
    None
}

fn clause_place(clause: &MachineClause) -> Option<u32>
    ensures { spec.IsFirstOf (spec.clause_places clause.now) result }
{
    match clause {
        MachineClause::Events(events) => events_place(events.as_slice()),
        MachineClause::Variables(_) => None,
        MachineClause::Invariants(_) => None,
        MachineClause::Variant(_, _) => None,
    }
}

fn clauses_place(clauses: &[MachineClause]) -> Option<u32>
    ensures { spec.IsFirstOf (flat_map spec.clause_places clauses.now) result }
{
    for clause in clauses {
        if let Some(place) = clause_place(clause) {
            return Some(place);
        }
    }
    None
}

fn machine_place(machine: &Machine) -> Option<u32>
    ensures { spec.IsFirstOf (spec.refinement_places machine.now.refines ++ flat_map spec.clause_places machine.now.clauses) result }
{
    match refinement_place(&machine.refines) {
        Some(place) => Some(place),
        None => clauses_place(machine.clauses.as_slice()),
    }
}

fn unit_place(unit: &EbUnit) -> Option<u32>
    ensures { spec.IsFirstOf (spec.unit_places unit.now) result }
{
    match unit {
        EbUnit::Machine(machine) => machine_place(machine),
        EbUnit::Context(_) | EbUnit::Scope(_) | EbUnit::Queries(_) => None,
    }
}

/// The place of the first thing that isn't supported.
pub(crate) fn unsupported_place(units: &[EbUnit]) -> Option<u32>
    ensures { spec.IsFirstOf (spec.unsupported units.now) result }
{
    for unit in units {
        if let Some(place) = unit_place(unit) {
            return Some(place);
        }
    }
    None
}
