//! Up at a node.
ghost use Rattle.std.specs.Prelude.{◌≡◌, ◌<◌, ◌+◌, suc, ℕ, length, slice_get, option_and_then, option_copied, IfOk, MatchOption, Some};
ghost use Rattle.std.specs.List.{All};
ghost use Rattle.eb_value.specs.Canonical.{IsCanonical};
ghost use Rattle.eb_operations.specs.Operations.{part_at as part_in};
ghost use Rattle.eb_term.specs.Nodes.{nodes_of};
ghost use Rattle.eb_term.specs.Terms.{layer};
ghost use Rattle.problem_nodes.specs.Places.{size};
ghost use Rattle.rules_base.specs.Operators.{unary_rule, binary_rule};
ghost use Rattle.occurrences.specs.declared.place.Place.TheVariants as place;
ghost use Rattle.occurrences.specs.Stores.{truth_alone as alone, whole_of};
ghost use Rattle.node_rules.specs.Nodes as spec;

use eb_operations::part_at;
use eb_term::{Head, Side, Term};
use eb_value::{EbType, Scope, Value};
use occ_domains::{Body, Domain, Truths, is_without_sets, only, whole};
use occurrences::{Place, View, referred};
use problem_nodes::Nodes;
use rules_base::{BinaryRule, UnaryRule, up_binary, up_unary};
use std::alloc::{AllocError, Global};
use term_types::type_of;

/// What a node may be by what its parts may be; a reference by what it refers to; a literal and a variable is its value. All that
/// may come of it where its operator has no rule, and of a literal or variable whose type contains sets. The only error is want of
/// memory.
pub fn up<V: View>(
    alloc: Global,
    nodes: &Nodes,
    scope: &Scope,
    view: &V,
    node: u64,
    bound: &[Value],
) -> Result<Domain, AllocError>
    requires there { node < length (nodes_of nodes.now) }
    requires canonical { All IsCanonical bound.now }
    ensures row { IfOk result (λ d. MatchOption (slice_get (nodes_of nodes.now) node) ⊥ (λ t. d ≡ spec.up_at scope.now nodes.now (V.domains view.now) node bound.now t)) }
{
    match nodes.get(node) {
        Some(term) => up_term(alloc, nodes, scope, view, node, bound, term),
        None => Ok(Domain::Values(Body::Empty, false)),
    }
}

fn up_term<V: View>(
    alloc: Global,
    nodes: &Nodes,
    scope: &Scope,
    view: &V,
    node: u64,
    bound: &[Value],
    term: &Term,
) -> Result<Domain, AllocError>
    requires there { slice_get (nodes_of nodes.now) node ≡ Some term.now }
    requires canonical { All IsCanonical bound.now }
    ensures { IfOk result (λ d. d ≡ spec.up_at scope.now nodes.now (V.domains view.now) node bound.now term.now) }
{
    match &term.head {
        Head::Truth(b) => Ok(truth_alone(*b)),
        Head::Literal(value, ty) => known(alloc, scope, ty.get(), value.get()),
        Head::Reference(number, _) => {
            let choices = nodes.problem().choices.len() as u64;
            view.at(referred(choices, *number), &[]).copied(alloc)
        }
        Head::Variable(number, path, ty) => {
            let value = variable(bound, *number, path.as_slice());
            known_slot(alloc, scope, ty.get(), value)
        }
        Head::Unary(operator, _) => match UnaryRule::of(*operator) {
            Some(rule) => up_unary(
                alloc,
                rule,
                view.at(Place::Node(nodes.first_part(node)), bound),
            ),
            None => whole_domain(alloc, scope, term),
        },
        Head::Binary(operator, _, _) => match BinaryRule::of(*operator) {
            Some(rule) => {
                let left = view.at(Place::Node(nodes.first_part(node)), bound);
                let right = view.at(Place::Node(nodes.second_part(node)), bound);
                up_binary(alloc, rule, left, right)
            }
            None => whole_domain(alloc, scope, term),
        },
        _ => whole_domain(alloc, scope, term),
    }
}

fn truth_alone(truth: bool) -> Domain
    ensures { result ≡ alone truth }
{
    Domain::Truths(Truths {
        can_be_true: truth,
        can_be_false: !truth,
        can_be_undefined: false,
    })
}

/// The value of a binder, or a part of it.
fn variable<'b>(bound: &'b [Value], number: u32, path: &[Side]) -> Option<&'b Value>
    requires { All IsCanonical bound.now }
    ensures { option_copied result ≡ option_and_then (part_in path.now) (slice_get bound.now number) }
{
    let value = bound.get(number as usize)?;
    part_at(path, value)
}

fn known_slot(
    alloc: Global,
    scope: &Scope,
    ty: &EbType,
    value: Option<&Value>,
) -> Result<Domain, AllocError>
    ensures { IfOk result (λ d. d ≡ spec.known_slot scope.now ty.now (option_copied value.entry)) }
{
    match value {
        Some(value) => known(alloc, scope, ty, value),
        None => whole_values(alloc, scope, ty),
    }
}

/// A value that is known.
fn known(alloc: Global, scope: &Scope, ty: &EbType, value: &Value) -> Result<Domain, AllocError>
    ensures { IfOk result (λ d. d ≡ spec.known scope.now ty.now value.now) }
{
    if is_without_sets(ty) {
        let value = value.copied(alloc)?;
        only(alloc, Some(value))
    } else {
        whole_values(alloc, scope, ty)
    }
}

/// All values of a type, and Undefined.
fn whole_values(alloc: Global, scope: &Scope, ty: &EbType) -> Result<Domain, AllocError>
    ensures { IfOk result (λ d. d ≡ spec.whole_values scope.now ty.now) }
{
    let body = whole(alloc, ty, scope)?;
    Ok(Domain::Values(body, true))
}

/// The domain of all that may come of a term.
fn whole_domain(alloc: Global, scope: &Scope, term: &Term) -> Result<Domain, AllocError>
    ensures { IfOk result (λ d. d ≡ whole_of scope.now term.now) }
{
    let ty = type_of(alloc, term)?;
    match &ty {
        Some(ty) => whole_values(alloc, scope, ty),
        None => Ok(Domain::Truths(Truths {
            can_be_true: true,
            can_be_false: true,
            can_be_undefined: true,
        })),
    }
}
