//! Where a term is evaluated, and what is found there.
ghost use Rattle.std.specs.Prelude.{◌≡◌, IfOk, IfSome, Some, slice_get};
ghost use Rattle.std.specs.Option.{option_copied};
ghost use Rattle.eb_value.specs.Canonical.{IsCanonical, AreCanonical};
ghost use Rattle.eb_meaning.specs.Meaning as spec;
ghost use Rattle.eb_meaning.specs.Slots.{AreCanonicalSlots};

use eb_value::Value;
use std::alloc::{AllocError, Global};
use std::marker::Model;

/// What the references stand for, by place, and the value of each enclosing binder, outermost first.
#[derive(Drop)]
pub(crate) struct Setting<'r, 'b> {
    refs: &'r [Option<Value>],
    bound: &'b [Value],
}

impl<'r, 'b> Model for Setting<'r, 'b> {
    ghost use Rattle.eb_value.specs.Canonical.{AreCanonical};
    ghost use Rattle.eb_meaning.specs.Slots.{AreCanonicalSlots};
    ghost use Rattle.eb_meaning.specs.Meaning.{Env};
    ghost use Rattle.std.specs.Coded.{codes};
    ghost use Rattle.eb_value.specs.contracts.value.Value as v;

    ghost Value = { Env };

    ghost coded = { Prim.hlevel (codes, v.the_row.coded) };

    ghost view = { λ s. record { refs = s.refs.now; bound = s.bound.now } };

    ghost invariant = { λ s. AreCanonicalSlots s.refs.now × AreCanonical s.bound.now };
}

impl<'r, 'b> Setting<'r, 'b> {
    pub(crate) fn new(refs: &'r [Option<Value>], bound: &'b [Value]) -> Setting<'r, 'b>
        requires refs { AreCanonicalSlots refs.now }
        requires bound { AreCanonical bound.now }
        ensures { result ≡ record { refs = refs.now; bound = bound.now } }
    {
        Setting { refs, bound }
    }

    /// The same references, inside other binders.
    pub(crate) fn inside<'i>(&self, bound: &'i [Value]) -> Setting<'r, 'i>
        requires { AreCanonical bound.now }
        ensures { result ≡ record { refs = self.now.refs; bound = bound.now } }
    {
        Setting {
            refs: self.refs,
            bound,
        }
    }

    /// What stands at a place.
    pub(crate) fn slot(&self, place: u32) -> Option<&Value>
        ensures slot { option_copied result ≡ spec.slot_at self.now.refs place }
        ensures canonical { IfSome result (λ v. IsCanonical v.now) }
    {
        slot_in(self.refs, place)
    }

    /// The values of the enclosing binders.
    pub(crate) fn bound(&self) -> &[Value]
        ensures bound { result.now ≡ self.now.bound }
        ensures canonical { AreCanonical result.now }
    {
        self.bound
    }
}

/// What stands at a place, none past the end.
pub(crate) fn slot_in(refs: &[Option<Value>], place: u32) -> Option<&Value>
    ensures { option_copied result ≡ spec.slot_at refs.now place }
{
    match refs.get(place as usize) {
        Some(slot) => slot.as_ref(),
        None => None,
    }
}

/// A value that is lent where it stands, or that was made.
#[derive(Drop)]
pub(crate) struct Found<'a> {
    place: Place<'a>,
}

#[derive(Drop)]
enum Place<'a> {
    Lent(&'a Value),
    Owned(Value),
}

impl<'a> Model for Found<'a> {
    ghost use Rattle.eb_value.specs.declared.value.Value.{Value as TheValue};
    ghost use Rattle.eb_value.specs.Canonical.{IsCanonical};
    ghost use Rattle.eb_meaning.specs.steps.Finding.{value_in};
    ghost use Rattle.std.specs.Coded.{codes};
    ghost use Rattle.eb_value.specs.contracts.value.Value as v;

    ghost Value = { TheValue };

    ghost coded = { Prim.hlevel (codes, v.the_row.coded) };

    ghost view = { λ f. value_in f.place };

    ghost invariant = { λ f. IsCanonical (value_in f.place) };
}

impl<'a> Found<'a> {
    pub(crate) fn lent(value: &'a Value) -> Found<'a>
        requires { IsCanonical value.now }
        ensures { result ≡ value.now }
    {
        Found {
            place: Place::Lent(value),
        }
    }

    pub(crate) fn owned(value: Value) -> Found<'a>
        requires { IsCanonical value }
        ensures { result ≡ value }
    {
        Found {
            place: Place::Owned(value),
        }
    }

    pub(crate) fn get(&self) -> &Value
        ensures value { result.now ≡ self.now }
        ensures canonical { IsCanonical result.now }
    {
        match &self.place {
            Place::Lent(value) => value,
            Place::Owned(value) => value,
        }
    }

    /// The value itself, a copy where it is lent. The only error is want of memory.
    pub(crate) fn into_value(self, alloc: Global) -> Result<Value, AllocError>
        ensures value { IfOk result (λ v. v ≡ self.entry) }
        ensures canonical { IfOk result IsCanonical }
    {
        match self.place {
            Place::Lent(value) => value.copied(alloc),
            Place::Owned(value) => Ok(value),
        }
    }
}
