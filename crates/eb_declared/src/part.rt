//! What the units of a text are made of, as far as names go.

use eb_names::Name;
use eb_syntax::{Ast, Context, Event, Identifier};

/// Where a name stands alone. An event or context that a space belongs to is given by its name.
#[derive(Clone, Copy, Debug)]
pub enum Space<'a> {
    /// Contexts and machines.
    Units,
    /// Carrier sets, constants and variables.
    Model,
    /// The parameters of an event.
    Parameters(&'a str),
    /// Events.
    Events,
    /// The labels of the axioms of a context.
    Axioms(&'a str),
    /// The labels of invariants.
    Invariants,
    /// The variables that an event assigns.
    Assigned(&'a str),
    /// What may stand once in a text.
    Words,
    /// The carrier sets whose sizes are given.
    Sizes,
}

/// Where a name is looked up.
#[derive(Clone, Copy)]
pub enum Position<'a> {
    /// Behind `extends` or `sees`.
    Context,
    /// Behind `size`.
    Size,
    /// In an axiom of the context.
    Axiom(&'a Context),
    /// In an invariant.
    Invariant,
    /// In a guard or action of the event, where these names have values after it.
    Event(&'a Event, &'a [Identifier]),
    /// Left of `:=`, `::` or `:|`.
    Assigned,
    /// The f of `f(E) := F` in this event.
    Changed(&'a Event),
}

/// What stands in a unit.
#[derive(Clone, Copy)]
pub enum Part<'a> {
    /// A name that is declared.
    Declared(Space<'a>, &'a str),
    /// A name that is used outside a formula.
    Used(Position<'a>, &'a Name),
    /// A formula.
    Formula(Position<'a>, &'a Ast),
}
