//! From the bytes of a model's text to what it asks.
ghost use Rattle.std.specs.Prelude.{◌≡◌, ◌<◌, ◌^◌, ◌↔◌, true, IsTrue, None, length, map, IfOk, OnOk, IfErr};
ghost use Rattle.scope_settings.specs.Scopes as scopes;
ghost use Rattle.model_text.specs.Asking as asking;
ghost use Rattle.model_text.specs.Texts as spec;

use crate::asked::{Asked, Wanted};
use crate::asking::{all_axioms, has_machine, have_integers, is_wanted, queries_of, some_axioms};
use crate::fault::TextFault;
use crate::refusal::Refusal;
use cbc_query::{QueryFault, axioms_problem};
use eb_forms::first_misplaced;
use eb_infer::{Typing, infer};
use eb_lexer::{a_text_is_read_in_one_way, tokens, tokens_name_slices};
use eb_lower::names;
use eb_model::{EbModel, resolve_model};
use eb_syntax::{Query, Units};
use eb_term::Problem;
use eb_units::units;
use eb_value::Scope;
use scope_settings::scope_of;
use std::alloc::{AllocError, Global};

/// The units of a text, their model, and the types of its identifiers and marks.
#[derive(Drop)]
struct TypedUnits {
    units: Units,
    model: EbModel,
    types: Typing,
}

/// The units of a text.
fn units_of(alloc: Global, text: &[u8]) -> Result<Units, TextFault>
    requires { length text.now < 2 ^ 32 }
    ensures read { IfOk result (spec.AreUnits text.now) }
    ensures cause { IfErr result (spec.IsAlwaysFaultOf text.now) }
{
    tokens_name_slices();
    let tokens = tokens(alloc, text)?;
    let units = units(alloc, &tokens)?;
    Ok(units)
}

/// The units of a text, with lawful names.
fn named_units(alloc: Global, text: &[u8]) -> Result<Units, TextFault>
    requires { length text.now < 2 ^ 32 }
    ensures read { IfOk result (spec.AreNamedUnits text.now) }
    ensures cause { IfErr result (spec.IsAlwaysFaultOf text.now) }
{
    let units = units_of(alloc, text)?;
    names(alloc, units.as_slice())?;
    Ok(units)
}

/// The units of a text, with lawful names and types.
fn typed_units(alloc: Global, text: &[u8]) -> Result<TypedUnits, TextFault>
    requires { length text.now < 2 ^ 32 }
    ensures read { IfOk result (λ t. spec.AreTypedUnits text.now t.units t.model t.types) }
    ensures cause { IfErr result (spec.IsAlwaysFaultOf text.now) }
{
    let units = named_units(alloc, text)?;
    let model = resolve_model(alloc, units.as_slice())?;
    let types = infer(alloc, &model)?;
    Ok(TypedUnits {
        units,
        model,
        types,
    })
}

/// The units of a text, in which each form stands where it may.
fn formed_units(alloc: Global, text: &[u8]) -> Result<TypedUnits, TextFault>
    requires { length text.now < 2 ^ 32 }
    ensures read { IfOk result (λ t. spec.AreFormedUnits text.now t.units t.model t.types) }
    ensures cause { IfErr result (spec.IsAlwaysFaultOf text.now) }
{
    let typed = typed_units(alloc, text)?;
    match first_misplaced(alloc, &typed.model, &typed.types)? {
        Some(place) => Err(TextFault::Refused(Refusal::InfiniteSet(place))),
        None => Ok(typed),
    }
}

/// Units whose scope and formulas keep their limits, with the scope.
fn scoped_units(alloc: Global, text: &[u8]) -> Result<(TypedUnits, Scope), TextFault>
    requires { length text.now < 2 ^ 32 }
    ensures read { IfOk result (λ t. spec.AreScopedUnits text.now t.0.units t.0.model t.0.types) }
    ensures scope { IfOk result (λ t. t.1 ≡ scopes.scope_of t.0.units t.0.model) }
    ensures small { IfOk result (λ t. asking.IsSmall t.1) }
    ensures cause { IfErr result (spec.IsAlwaysFaultOf text.now) }
{
    let typed = formed_units(alloc, text)?;
    let scope = scope_of(alloc, typed.units.as_slice(), &typed.model)?;
    Ok((typed, scope))
}

/// The problem of the query `axioms`, if there is such a query.
fn problem_in(
    alloc: Global,
    typed: &TypedUnits,
    scope: &Scope,
) -> Result<Option<Problem>, QueryFault>
    requires { scope.now ≡ scopes.scope_of typed.now.units typed.now.model }
    ensures problem { IfOk result (λ p. p ≡ asking.problem_asked typed.now.units typed.now.model typed.now.types) }
    ensures few { IfOk result asking.IsFew }
    ensures within { OnOk result (asking.problem_passed typed.now.units typed.now.model typed.now.types ≡ None) }
    ensures cause { IfErr result (asking.IsProblemFault typed.now.units typed.now.model typed.now.types) }
{
    let queries = queries_of(alloc, typed.units.as_slice())?;
    if some_axioms(&queries) {
        let problem = axioms_problem(alloc, scope, &typed.model, &typed.types)?;
        Ok(Some(problem))
    } else {
        Ok(None)
    }
}

/// Units of which no query's problem passes a limit, with their scope and the problem that their queries have.
fn limited_units(
    alloc: Global,
    text: &[u8],
) -> Result<(TypedUnits, Scope, Option<Problem>), TextFault>
    requires { length text.now < 2 ^ 32 }
    ensures read { IfOk result (λ t. spec.AreLimitedUnits text.now t.0.units t.0.model t.0.types) }
    ensures scope { IfOk result (λ t. t.1 ≡ scopes.scope_of t.0.units t.0.model) }
    ensures small { IfOk result (λ t. asking.IsSmall t.1) }
    ensures problem { IfOk result (λ t. t.2 ≡ asking.problem_asked t.0.units t.0.model t.0.types) }
    ensures few { IfOk result (λ t. asking.IsFew t.2) }
    ensures cause { IfErr result (spec.IsAlwaysFaultOf text.now) }
{
    let (typed, scope) = scoped_units(alloc, text)?;
    let problem = problem_in(alloc, &typed, &scope)?;
    Ok((typed, scope, problem))
}

/// Whether it is answered today what these units ask.
fn is_today(alloc: Global, typed: &TypedUnits, queries: &[&Query]) -> Result<bool, AllocError>
    requires { map (λ q. q.now) queries.now ≡ asking.queries typed.now.units }
    ensures { IfOk result (λ b. IsTrue b ↔ asking.IsAnsweredToday typed.now.units typed.now.model typed.now.types) }
{
    if has_machine(typed.units.as_slice()) || !all_axioms(queries) {
        return Ok(false);
    }
    have_integers(alloc, &typed.model, &typed.types)
}

/// How many queries there are, where they are as many as are wanted and are answered today.
fn counted(alloc: Global, typed: &TypedUnits, wanted: Wanted) -> Result<u64, TextFault>
    ensures count { IfOk result (λ n. n ≡ length (asking.queries typed.now.units)) }
    ensures wanted { IfOk result (λ n. asking.is_wanted wanted n ≡ true) }
    ensures today { IfOk result (λ _. asking.IsAnsweredToday typed.now.units typed.now.model typed.now.types) }
    ensures cause { IfErr result (spec.IsCountFault wanted typed.now.units typed.now.model typed.now.types) }
{
    let queries = queries_of(alloc, typed.units.as_slice())?;
    if !is_wanted(wanted, queries.len()) {
        return Err(TextFault::Refused(Refusal::QueryCount));
    }
    if !is_today(alloc, typed, &queries)? {
        return Err(TextFault::Refused(Refusal::NotYet));
    }
    Ok(queries.len() as u64)
}

/// What a text asks, whose queries are as many as are wanted. The text has fewer than 2^32 bytes.
///
/// Errors: the refusal of a text, in this order: `NotUtf8`; `BadToken` with the first place, in bytes, at which neither white
/// space nor a comment nor a token begins; `TooDeep` and `Syntax` where the tokens have no reading as units with formulas of
/// heights up to 200; the faults of their names; `TypeClash` and `TypeOpen`; `InfiniteSet` with the place of the first form that stands
/// where it may not; `ScopeBad` with the first limit that the scope and the formulas pass, and then the first that the problem of
/// a query passes; `QueryCount` where there are other than so many queries; `NotYet` where something is asked that isn't answered today.
/// Else `Memory`, only where memory ran out.
pub fn asked_text(alloc: Global, text: &[u8], wanted: Wanted) -> Result<Asked, TextFault>
    requires { length text.now < 2 ^ 32 }
    ensures read { IfOk result (spec.IsText wanted text.now) }
    ensures lawful { IfOk result asking.IsLawful }
    ensures cause { IfErr result (spec.IsFaultOf wanted text.now) }
{
    let (typed, scope, problem) = limited_units(alloc, text)?;
    let times = counted(alloc, &typed, wanted)?;
    Ok(Asked {
        model: typed.model,
        types: typed.types,
        scope,
        times,
        problem,
    })
}
