//! Down to a node.
ghost use Rattle.std.specs.Prelude.{◌≡◌, ◌<◌, length, slice_get, IfOk, Some};
ghost use Rattle.eb_term.specs.Nodes.{nodes_of};
ghost use Rattle.eb_term.specs.Terms.{layer};
ghost use Rattle.occurrences.specs.declared.place.Place.TheVariants as place;
ghost use Rattle.problem_nodes.specs.declared.nodes.Above.{Above as TheAbove};
ghost use Rattle.problem_nodes.specs.declared.nodes.Above.TheVariants as above;
ghost use Rattle.problem_nodes.specs.Places.{StandsBelow};
ghost use Rattle.node_rules.specs.Nodes as spec;

use eb_term::{Head, Side, Term};
use eb_value::Value;
use occ_domains::Domain;
use occurrences::{Place, View};
use problem_nodes::{Above, Nodes, nodes_have_their_places};
use rules_base::{BinaryRule, UnaryRule, down_binary, down_unary};
use std::alloc::{AllocError, Global};

/// What a node may be by what it stands below: a definition by what the definition may be, a part by its node and the other part.
/// What it was where the node above has no rule, and of a fact. The only error is want of memory.
pub fn down<V: View>(
    alloc: Global,
    nodes: &Nodes,
    view: &V,
    node: u64,
    bound: &[Value],
) -> Result<Domain, AllocError>
    requires there { node < length (nodes_of nodes.now) }
    ensures row { IfOk result (λ d. (a : TheAbove) → StandsBelow nodes.now node a → d ≡ spec.down_at nodes.now (V.domains view.now) node bound.now a) }
{
    nodes_have_their_places();
    let above = nodes.above(node);
    down_from(alloc, nodes, view, node, bound, above)
}

/// The same, by what the node stands below.
pub(crate) fn down_from<V: View>(
    alloc: Global,
    nodes: &Nodes,
    view: &V,
    node: u64,
    bound: &[Value],
    above: Above,
) -> Result<Domain, AllocError>
    ensures { IfOk result (λ d. d ≡ spec.down_at nodes.now (V.domains view.now) node bound.now above) }
{
    match above {
        Above::Definition(number) => view.at(Place::Definition(number), &[]).copied(alloc),
        Above::Fact(_) => view.at(Place::Node(node), bound).copied(alloc),
        Above::Part(number, part) => {
            let now = view.at(Place::Node(node), bound);
            match nodes.get(number) {
                Some(term) => down_part(alloc, nodes, view, number, bound, part, term, now),
                None => now.copied(alloc),
            }
        }
    }
}

/// Down to the part at a place of the node with this number.
fn down_part<V: View>(
    alloc: Global,
    nodes: &Nodes,
    view: &V,
    number: u64,
    bound: &[Value],
    part: u64,
    term: &Term,
    now: &Domain,
) -> Result<Domain, AllocError>
    requires there { slice_get (nodes_of nodes.now) number ≡ Some term.now }
    ensures { IfOk result (λ d. d ≡ spec.down_layer (V.domains view.now) number bound.now part (layer term.now) now.now) }
{
    match (&term.head, part) {
        (Head::Unary(operator, _), 0) => match UnaryRule::of(*operator) {
            Some(rule) => down_unary(alloc, rule, view.at(Place::Node(number), bound), now),
            None => now.copied(alloc),
        },
        (Head::Binary(operator, _, _), 0) => match BinaryRule::of(*operator) {
            Some(rule) => {
                let whole = view.at(Place::Node(number), bound);
                let other = view.at(Place::Node(nodes.second_part(number)), bound);
                down_binary(alloc, rule, Side::First, whole, now, other)
            }
            None => now.copied(alloc),
        },
        (Head::Binary(operator, _, _), 1) => match BinaryRule::of(*operator) {
            Some(rule) => {
                let whole = view.at(Place::Node(number), bound);
                let other = view.at(Place::Node(nodes.first_part(number)), bound);
                down_binary(alloc, rule, Side::Second, whole, now, other)
            }
            None => now.copied(alloc),
        },
        _ => now.copied(alloc),
    }
}
