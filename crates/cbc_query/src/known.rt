//! What the formulas of a model stand in. The only error of each function is want of memory; a model with more than `u32::MAX`
//! constants counts as such.
ghost use Rattle.std.specs.Prelude.{◌≡◌, map, IfOk, OnOk, replicate, None, Some, slice_set};
ghost use Rattle.eb_value.specs.Scopes.{vals};
ghost use Rattle.eb_value.specs.Types.{carrier};
ghost use Rattle.cbc_query.specs.Settings as spec;
ghost use Rattle.cbc_query.specs.steps.Tables as step;

use crate::parts::type_in;
use eb_infer::Typing;
use eb_lowering::{Ranges, Setting};
use eb_model::{EbModel, ModelPart};
use eb_term::{SharedType, Term};
use eb_value::{
    EbType, Scope, Value, canonical_values_have_canonical_parts, values, values_are_ascending,
};
use sqlite_items::Items;
use std::alloc::{AllocError, Global};

/// The set of all atoms of a carrier set.
fn carrier_term(alloc: Global, scope: &Scope, place: u32) -> Result<Term, AllocError>
    ensures { IfOk result (λ t. t ≡ spec.carrier_term scope.now place) }
{
    values_are_ascending();
    canonical_values_have_canonical_parts();
    let members = values(alloc, &EbType::carrier(place), scope)?;
    let ty = EbType::power(alloc, EbType::carrier(place))?;
    let term = Term::literal(alloc, Value::set(members), ty)?;
    Ok(term)
}

/// The constant at this place among the constants.
fn constant_term(alloc: Global, types: &Typing, number: u32, place: u32) -> Result<Term, AllocError>
    ensures { IfOk result (λ t. t ≡ step.constant_term types.now number place) }
{
    let ty = SharedType::new(alloc, type_in(alloc, types, number)?)?;
    let term = Term::reference(place, &ty)?;
    Ok(term)
}

/// So many numbers without a term.
fn unknown_terms(alloc: Global, count: u32) -> Result<Items<Option<Term>>, AllocError>
    ensures { IfOk result (λ known. known ≡ replicate count None) }
{
    let mut known = Items::new(alloc);
    for _number in 0..count {
        known.push(None)?;
    }
    Ok(known)
}

/// Gives a number that is there its term.
fn set_known(known: &mut Items<Option<Term>>, number: u32, term: Term)
    ensures { known.new ≡ slice_set known.old number (Some term) }
{
    let number = number as usize;
    if number < known.len() {
        known.set(number, Some(term));
    }
}

/// Gives what a part declares its term. So many constants stand before the part: the result is how many stand before the next
/// one.
fn enter(
    alloc: Global,
    scope: &Scope,
    types: &Typing,
    part: &ModelPart,
    constants: u32,
    known: &mut Items<Option<Term>>,
) -> Result<u32, AllocError>
    ensures known { OnOk result (known.new ≡ step.filled known.old (step.part_terms scope.now types.now constants part.now)) }
    ensures count { IfOk result (λ next. next ≡ step.constants_behind constants part.now) }
{
    match part {
        ModelPart::Carrier(place, identifier) => {
            let term = carrier_term(alloc, scope, *place)?;
            set_known(known, identifier.number, term);
            Ok(constants)
        }
        ModelPart::Constant(identifier) => {
            let term = constant_term(alloc, types, identifier.number, constants)?;
            set_known(known, identifier.number, term);
            let next = constants.checked_add(1).ok_or(AllocError)?;
            Ok(next)
        }
        ModelPart::Variable(_) => Ok(constants),
        ModelPart::Axiom(_) => Ok(constants),
        ModelPart::Invariant(_) => Ok(constants),
        ModelPart::Event(_) => Ok(constants),
    }
}

/// The terms of the carrier sets and the constants of the model, by their numbers, in time linear in the model.
fn known_terms(
    alloc: Global,
    scope: &Scope,
    model: &EbModel,
    types: &Typing,
) -> Result<Items<Option<Term>>, AllocError>
    ensures { IfOk result (λ known. known ≡ step.filled (replicate model.now.numbers None) (spec.terms_from scope.now types.now 0 model.now.parts)) }
{
    let mut known = unknown_terms(alloc, model.numbers)?;
    let mut constants: u32 = 0;
    for part in model.parts.as_slice() {
        let next = enter(alloc, scope, types, part, constants, &mut known)?;
        constants = next;
    }
    Ok(known)
}

/// The types, to be shared.
fn shared_types(alloc: Global, types: &Typing) -> Result<Items<SharedType>, AllocError>
    ensures { IfOk result (λ all. all ≡ types.now) }
{
    let mut all = Items::new(alloc);
    for number in 0..types.len() {
        let written = type_in(alloc, types, number)?;
        let shared = SharedType::new(alloc, written)?;
        all.push(shared)?;
    }
    Ok(all)
}

/// What the formulas of a model with these types stand in.
pub(crate) fn setting_of(
    alloc: Global,
    scope: &Scope,
    model: &EbModel,
    types: &Typing,
    ranges: Ranges,
) -> Result<Setting, AllocError>
    ensures { IfOk result (λ setting. setting ≡ spec.setting_of scope.now model.now types.now ranges) }
{
    let known = known_terms(alloc, scope, model, types)?;
    let types = shared_types(alloc, types)?;
    Ok(Setting {
        types,
        known,
        ranges,
    })
}
