//! The problem of the query `axioms`.
ghost use Rattle.std.specs.Prelude.{◌≡◌, ◌<◌, ◌≤◌, ◌^◌, map, length, None, IfOk, IfErr, OnOk};
ghost use Rattle.eb_narrow.specs.Narrow.{narrow as narrowed};
ghost use Rattle.cbc_query.specs.Faults.{IsFaultOf};
ghost use Rattle.cbc_query.specs.Limits as limits;
ghost use Rattle.cbc_query.specs.Problems as spec;
ghost use Rattle.cbc_query.specs.steps.Passed as step;

use crate::fault::QueryFault;
use crate::known::setting_of;
use crate::large::{go_far, have_large_elements, nodes_in_narrow_form};
use crate::parts::{axiom_terms, choices_of};
use eb_infer::Typing;
use eb_lowering::Ranges;
use eb_model::EbModel;
use eb_narrow::narrow;
use eb_term::{Choice, Problem, Term, Terms};
use eb_value::Scope;
use scope_settings::Limit;
use std::alloc::{AllocError, Global};

/// How many nodes a problem has at most.
const MOST_NODES: u64 = 1_000_000;

/// How many choices or facts a problem has at most.
const MOST: usize = 4_294_967_295;

/// The terms in narrow form.
fn facts_of(alloc: Global, terms: &[Term]) -> Result<Terms, AllocError>
    ensures { IfOk result (λ facts. facts ≡ map narrowed terms.now) }
{
    let mut facts = Terms::new(alloc);
    for term in terms {
        facts.push(narrow(alloc, term)?)?;
    }
    Ok(facts)
}

/// The axioms as they are written.
fn terms_of(
    alloc: Global,
    scope: &Scope,
    model: &EbModel,
    types: &Typing,
) -> Result<Terms, AllocError>
    ensures { IfOk result (λ terms. terms ≡ spec.axiom_terms scope.now model.now types.now) }
{
    let setting = setting_of(alloc, scope, model, types, Ranges::Typed)?;
    let terms = axiom_terms(alloc, &setting, model)?;
    Ok(terms)
}

/// The first limit that a problem with these choices passes, whose facts are the narrow forms of these terms.
fn limit_passed(scope: &Scope, choices: &[Choice], terms: &[Term]) -> Option<Limit>
    ensures { result ≡ step.limit_passed scope.now choices.now terms.now }
{
    if have_large_elements(choices, scope) {
        Some(Limit::Element)
    } else if go_far(terms, scope) {
        Some(Limit::Bound)
    } else if nodes_in_narrow_form(terms) > MOST_NODES {
        Some(Limit::Nodes)
    } else {
        None
    }
}

/// The problem of the query `axioms`: a choice for each constant, and a fact for each axiom, in narrow form. The fault `Limit` is
/// the first limit that the problem passes, judged before anything is made that is as large; `Memory` comes where memory runs out,
/// and where there are more than `u32::MAX` constants or axioms.
pub fn axioms_problem(
    alloc: Global,
    scope: &Scope,
    model: &EbModel,
    types: &Typing,
) -> Result<Problem, QueryFault>
    ensures problem { IfOk result (λ p. p ≡ spec.axioms_problem scope.now model.now types.now) }
    ensures within { OnOk result (limits.axioms_passed scope.now model.now types.now ≡ None) }
    ensures few { IfOk result (λ p. length p.choices < 2 ^ 32) }
    ensures short { IfOk result (λ p. length p.facts < 2 ^ 32) }
    ensures cause { IfErr result (IsFaultOf scope.now model.now types.now) }
{
    let choices = choices_of(alloc, model, types)?;
    let terms = terms_of(alloc, scope, model, types)?;
    if choices.len() > MOST || terms.len() > MOST {
        return Err(QueryFault::Memory);
    }
    if let Some(limit) = limit_passed(scope, choices.as_slice(), terms.as_slice()) {
        return Err(QueryFault::Limit(limit));
    }
    let facts = facts_of(alloc, terms.as_slice())?;
    Ok(Problem {
        choices,
        definitions: Terms::new(alloc),
        facts,
    })
}
