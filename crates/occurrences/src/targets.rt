//! The occurrence whose domain a rule at a place narrows.
ghost use Rattle.std.specs.Prelude.{◌≡◌, length, option_and_then, slice_get, Some};
ghost use Rattle.eb_term.specs.Nodes.{nodes_of};
ghost use Rattle.problem_nodes.specs.Aboves.{above_of};
ghost use Rattle.occurrences.specs.declared.place.Place.TheVariants as place;
ghost use Rattle.occurrences.specs.Targets as spec;

use crate::place::{Place, Rule};
use eb_term::Head;
use problem_nodes::{Above, Nodes, nodes_have_their_places};

/// What a reference stands for, by the number of choices: one of these, or else a definition.
pub fn referred(choices: u64, number: u32) -> Place
    ensures { result ≡ spec.referred choices number }
{
    let number = u64::from(number);
    if number < choices {
        Place::Choice(number)
    } else {
        Place::Definition(number - choices)
    }
}

/// The place whose domain the rule at a place narrows. None exactly where the problem hasn't the place, or the rule doesn't fit it:
/// Up fits definitions and nodes, Down nodes that are no facts, and Refer references.
pub fn target(nodes: &Nodes, rule: Rule, place: Place) -> Option<Place>
    ensures { result ≡ spec.target nodes.now rule place }
{
    match (rule, place) {
        (Rule::Up, Place::Definition(k)) => definition_there(nodes, k),
        (Rule::Up, Place::Node(k)) => node_there(nodes, k),
        (Rule::Down, Place::Node(k)) => below(nodes, k),
        (Rule::Refer, Place::Node(k)) => reference_at(nodes, k),
        _ => None,
    }
}

fn definition_there(nodes: &Nodes, k: u64) -> Option<Place>
    ensures { result ≡ spec.definition_there (length nodes.now.definitions) k }
{
    if k < nodes.problem().definitions.len() as u64 {
        Some(Place::Definition(k))
    } else {
        None
    }
}

fn node_there(nodes: &Nodes, k: u64) -> Option<Place>
    ensures { result ≡ option_and_then (λ t. Some (place.Node k)) (slice_get (nodes_of nodes.now) k) }
{
    match nodes.get(k) {
        Some(_) => Some(Place::Node(k)),
        None => None,
    }
}

/// The node itself, unless it is a fact.
fn below(nodes: &Nodes, k: u64) -> Option<Place>
    ensures { result ≡ spec.below k (above_of nodes.now k) }
{
    nodes_have_their_places();
    if k >= nodes.len() {
        return None;
    }
    match nodes.above(k) {
        Above::Fact(_) => None,
        _ => Some(Place::Node(k)),
    }
}

/// What the node refers to.
fn reference_at(nodes: &Nodes, k: u64) -> Option<Place>
    ensures { result ≡ spec.reference_at nodes.now k }
{
    let term = nodes.get(k)?;
    match &term.head {
        Head::Reference(number, _) => {
            let choices = nodes.problem().choices.len() as u64;
            Some(referred(choices, *number))
        }
        _ => None,
    }
}
