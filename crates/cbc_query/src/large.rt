//! What is larger than a limit.
ghost use Rattle.std.specs.Prelude.{◌≡◌, ◌-◌, ◌^◌, ◌||◌, min, map, length};
ghost use Rattle.std.specs.List.{list_any, flat_map};
ghost use Rattle.eb_term.specs.Nodes.{subterms};
ghost use Rattle.eb_narrow.specs.Narrow.{narrow as narrowed};
ghost use Rattle.cbc_query.specs.Limits as spec;

use eb_narrow::narrowed_nodes;
use eb_term::{Choice, Head, Term};
use eb_value::{EbType, Scope, Shape, count};

/// How many values a type has at most.
const MOST_VALUES: u64 = 4096;

/// Whether the type has more than 4,096 values.
fn has_many(ty: &EbType, scope: &Scope) -> bool
    ensures { result ≡ spec.has_many scope.now ty.now }
{
    count(ty, scope) > MOST_VALUES
}

fn either(first: bool, second: bool) -> bool
    ensures { result ≡ (first || second) }
{
    first || second
}

/// Whether there is a set inside the type whose members' type has more than 4,096 values.
fn has_large_element(ty: &EbType, scope: &Scope) -> bool
    ensures { result ≡ list_any (spec.has_many scope.now) (spec.element_types ty.now) }
{
    match &ty.shape {
        Shape::Integer => false,
        Shape::Bool => false,
        Shape::Carrier(_) => false,
        Shape::Product(first, second) => {
            has_large_element(first.get(), scope) || has_large_element(second.get(), scope)
        }
        Shape::Power(member) => {
            let member = member.get();
            let is_large = has_many(member, scope);
            let has_large = has_large_element(member, scope);
            either(is_large, has_large)
        }
    }
}

/// Whether there is such a set inside the type of a choice.
pub(crate) fn have_large_elements(choices: &[Choice], scope: &Scope) -> bool
    ensures { result ≡ list_any (spec.has_large_element scope.now) choices.now }
{
    choices
        .iter()
        .any(|choice| has_large_element(&choice.ty, scope))
}

/// Whether the term goes over the values of a type with more than 4,096.
#[cycle(going)]
fn goes_far(term: &Term, scope: &Scope) -> bool
    ensures { result ≡ list_any (spec.has_many scope.now) (spec.range_types term.now) }
{
    match &term.head {
        Head::Truth(_) => false,
        Head::Literal(_, _) => false,
        Head::Reference(_, _) => false,
        Head::Variable(_, _, _) => false,
        Head::Infinite(_) => false,
        Head::Identity(ty) => has_many(ty.get(), scope),
        Head::Projection(_, first, second) => {
            has_many(first.get(), scope) || has_many(second.get(), scope)
        }
        Head::Unary(_, part) => goes_far(part.get(), scope),
        Head::Binary(_, left, right) => {
            goes_far(left.get(), scope) || goes_far(right.get(), scope)
        }
        Head::Many(_, parts) => go_far(parts.as_slice(), scope),
        Head::Over(_, range, body) => {
            let range = range.get();
            let body = body.get();
            let is_range_far = goes_far(range, scope);
            let is_body_far = goes_far(body, scope);
            either(is_range_far, is_body_far)
        }
        Head::All(_, ty, body) => has_many(ty.get(), scope) || goes_far(body.get(), scope),
    }
}

/// Whether one of the terms goes over the values of a type with more than 4,096.
#[cycle(going)]
pub(crate) fn go_far(terms: &[Term], scope: &Scope) -> bool
    ensures { result ≡ list_any (spec.has_many scope.now) (flat_map spec.range_types terms.now) }
{
    for term in terms {
        if goes_far(term, scope) {
            return true;
        }
    }
    false
}

/// How many nodes the terms have in narrow form, `u64::MAX` where there are more, without making it.
pub(crate) fn nodes_in_narrow_form(terms: &[Term]) -> u64
    ensures { result ≡ min (length (flat_map subterms (map narrowed terms.now))) (2 ^ 64 - 1) }
{
    let mut nodes: u64 = 0;
    for term in terms {
        nodes = nodes.saturating_add(narrowed_nodes(term));
    }
    nodes
}
