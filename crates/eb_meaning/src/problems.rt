//! Terms in an environment, and the facts of a problem under values of its choices.
ghost use Rattle.std.specs.Prelude.{◌≡◌, IfOk, IfSome, Some, map};
ghost use Rattle.std.specs.List.{list_any};
ghost use Rattle.eb_value.specs.Canonical.{IsCanonical, AreCanonical};
ghost use Rattle.eb_meaning.specs.Meaning as meaning;
ghost use Rattle.eb_meaning.specs.Problems as spec;
ghost use Rattle.eb_meaning.specs.Slots.{AreCanonicalSlots};

use crate::evaluation::{truth_at, value_at};
use crate::setting::Setting;
use eb_operations::Truth3;
use eb_term::{Head, Term};
use eb_value::{Row, Scope, Value};
use sqlite_items::Items;
use std::alloc::{AllocError, Global};

/// What terms refer to, by place: a value, or none where it is Undefined.
pub type Slots = Items<Option<Value>>;

/// What a term is evaluated in: what its references stand for, and the value of each enclosing binder, outermost first.
#[derive(Drop)]
pub struct Env {
    pub refs: Slots,
    pub bound: Row,
}

/// The value of an expression in an environment, none where it is Undefined. Each set in the environment, at every depth, is
/// to be its members in ascending order, and so is each set in the result. The only error is want of memory.
pub fn eval(
    alloc: Global,
    term: &Term,
    scope: &Scope,
    env: &Env,
) -> Result<Option<Value>, AllocError>
    requires refs { AreCanonicalSlots env.now.refs }
    requires bound { AreCanonical env.now.bound }
    ensures value { IfOk result (λ v. v ≡ meaning.value_of scope.now (record { refs = env.now.refs; bound = env.now.bound }) term.now) }
    ensures canonical { IfOk result (λ o. IfSome o IsCanonical) }
{
    let at = Setting::new(env.refs.as_slice(), env.bound.as_slice());
    value_at(alloc, scope, &at, term)
}

/// The truth of a predicate in an environment, as for `eval`. The only error is want of memory.
pub fn truth(alloc: Global, term: &Term, scope: &Scope, env: &Env) -> Result<Truth3, AllocError>
    requires refs { AreCanonicalSlots env.now.refs }
    requires bound { AreCanonical env.now.bound }
    ensures { IfOk result (λ t. t ≡ meaning.truth_in scope.now (record { refs = env.now.refs; bound = env.now.bound }) term.now) }
{
    let at = Setting::new(env.refs.as_slice(), env.bound.as_slice());
    truth_at(alloc, scope, &at, term)
}

/// What the terms of a problem refer to where its choices have these values: the values, and then the values of its
/// definitions, each over those before it. The only error is want of memory.
pub fn slots_of(
    alloc: Global,
    scope: &Scope,
    definitions: &[Term],
    values: &[Value],
) -> Result<Slots, AllocError>
    requires { AreCanonical values.now }
    ensures slots { IfOk result (λ slots. slots ≡ spec.slots_of scope.now definitions.now values.now) }
    ensures canonical { IfOk result AreCanonicalSlots }
{
    let mut slots = given(alloc, values)?;
    for definition in definitions {
        let at = Setting::new(slots.as_slice(), &[]);
        let value = value_at(alloc, scope, &at, definition)?;
        slots.push(value)?;
    }
    Ok(slots)
}

/// The values as what terms refer to, each at its place.
fn given(alloc: Global, values: &[Value]) -> Result<Slots, AllocError>
    requires { AreCanonical values.now }
    ensures slots { IfOk result (λ slots. slots ≡ map (λ v. Some v) values.now) }
    ensures canonical { IfOk result AreCanonicalSlots }
{
    let mut slots = Slots::new(alloc);
    for value in values {
        slots.push(Some(value.copied(alloc)?))?;
    }
    Ok(slots)
}

/// The truth of a fact, which is Undefined where it refers to a place where something Undefined stands. The only error is want of
/// memory.
pub fn fact_at(
    alloc: Global,
    scope: &Scope,
    slots: &[Option<Value>],
    fact: &Term,
) -> Result<Truth3, AllocError>
    requires { AreCanonicalSlots slots.now }
    ensures { IfOk result (λ t. t ≡ spec.fact_at scope.now slots.now fact.now) }
{
    if names_undefined(slots, fact) {
        return Ok(Truth3::Undefined);
    }
    truth_at(alloc, scope, &Setting::new(slots, &[]), fact)
}

/// Whether there is this place, and what stands there is Undefined.
fn is_undefined_at(slots: &[Option<Value>], place: u32) -> bool
    ensures { result ≡ spec.is_undefined_at slots.now place }
{
    match slots.get(place as usize) {
        Some(slot) => slot.is_none(),
        None => false,
    }
}

/// Whether the term refers to a place where something Undefined stands.
#[cycle(referring)]
fn names_undefined(slots: &[Option<Value>], term: &Term) -> bool
    ensures { result ≡ spec.names_undefined slots.now term.now }
{
    match &term.head {
        Head::Reference(place, _) => is_undefined_at(slots, *place),
        Head::Unary(_, part) => names_undefined(slots, part.get()),
        Head::Binary(_, left, right) => {
            names_undefined(slots, left.get()) || names_undefined(slots, right.get())
        }
        Head::Many(_, parts) => one_names_undefined(slots, parts.as_slice()),
        Head::Over(_, range, body) => {
            names_undefined(slots, range.get()) || names_undefined(slots, body.get())
        }
        Head::All(_, _, body) => names_undefined(slots, body.get()),
        _ => false,
    }
}

#[cycle(referring)]
fn one_names_undefined(slots: &[Option<Value>], terms: &[Term]) -> bool
    ensures { result ≡ list_any (spec.names_undefined slots.now) terms.now }
{
    for term in terms {
        if names_undefined(slots, term) {
            return true;
        }
    }
    false
}
