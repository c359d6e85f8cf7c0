//! A rule at an occurrence.
ghost use Rattle.std.specs.Prelude.{◌≡◌, ◌<◌, length, slice_get, IfOk, Some};
ghost use Rattle.std.specs.List.{All};
ghost use Rattle.eb_value.specs.Canonical.{IsCanonical};
ghost use Rattle.eb_term.specs.Nodes.{nodes_of};
ghost use Rattle.problem_nodes.specs.Places.{definition_roots};
ghost use Rattle.problem_nodes.specs.Aboves.{above_of};
ghost use Rattle.occ_domains.specs.Domains as domains;
ghost use Rattle.occurrences.specs.Targets as targets;
ghost use Rattle.node_rules.specs.Narrowing as spec;

use crate::downward::down_from;
use crate::upward::up;
use eb_value::{Scope, Value};
use occ_domains::{Body, Domain, meet};
use occurrences::{Place, Rule, View};
use problem_nodes::{Nodes, nodes_have_their_places};
use std::alloc::{AllocError, Global};

/// What the rule at an occurrence makes of the domain of its target: that domain, met with what the rule gives. The only error is want
/// of memory.
pub fn narrowing<V: View>(
    alloc: Global,
    nodes: &Nodes,
    scope: &Scope,
    view: &V,
    rule: Rule,
    place: Place,
    bound: &[Value],
    to: Place,
) -> Result<Domain, AllocError>
    requires fits { targets.target nodes.now rule place ≡ Some to }
    requires canonical { All IsCanonical bound.now }
    ensures { IfOk result (λ d. d ≡ spec.met scope.now nodes.now (V.domains view.now) rule place bound.now to) }
{
    nodes_have_their_places();
    match (rule, place) {
        (Rule::Up, Place::Definition(k)) => from_root(alloc, nodes, view, k, view.at(to, bound)),
        (Rule::Up, Place::Node(k)) => {
            let given = up(alloc, nodes, scope, view, k, bound)?;
            let d = meet(alloc, view.at(to, bound), &given)?;
            Ok(d)
        }
        (Rule::Down, Place::Node(k)) => from_above(
            alloc,
            nodes,
            view,
            k,
            bound,
            view.at(to, bound),
        ),
        (Rule::Refer, Place::Node(_)) => meet(alloc, view.at(to, &[]), view.at(place, bound)),
        _ => Ok(Domain::Values(Body::Empty, false)),
    }
}

/// The domain, met with that of the definition's term.
fn from_root<V: View>(
    alloc: Global,
    nodes: &Nodes,
    view: &V,
    k: u64,
    now: &Domain,
) -> Result<Domain, AllocError>
    requires { k < length nodes.now.definitions }
    ensures { IfOk result (λ d. d ≡ domains.meet now.now (spec.given_root (V.domains view.now) (slice_get (definition_roots nodes.now) k))) }
{
    let root = nodes.definition_root(k);
    let d = meet(alloc, now, view.at(Place::Node(root), &[]))?;
    Ok(d)
}

/// The domain, met with what the node may be by what it stands below.
fn from_above<V: View>(
    alloc: Global,
    nodes: &Nodes,
    view: &V,
    k: u64,
    bound: &[Value],
    now: &Domain,
) -> Result<Domain, AllocError>
    requires { k < length (nodes_of nodes.now) }
    ensures { IfOk result (λ d. d ≡ domains.meet now.now (spec.given_down nodes.now (V.domains view.now) k bound.now (above_of nodes.now k))) }
{
    nodes_have_their_places();
    let above = nodes.above(k);
    let given = down_from(alloc, nodes, view, k, bound, above)?;
    let d = meet(alloc, now, &given)?;
    Ok(d)
}
