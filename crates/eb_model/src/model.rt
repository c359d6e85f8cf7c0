//! What a model is made of.

use eb_names::Name;
use eb_resolved::Resolved;
use numbered_names::Entry;
use sqlite_items::Items;

/// A predicate behind its label, which is without its `@`: an axiom, an invariant or a guard. The unit is its context, its
/// machine or its event.
#[derive(Drop)]
pub struct LabelledFormula {
    pub unit: Name,
    pub label: Name,
    pub is_theorem: bool,
    pub formula: Resolved,
}

/// How an event changes variables. What is assigned is an identifier.
#[derive(Drop)]
pub enum Change {
    /// `x, y := E, F`
    BecomesEqual(Items<Resolved>, Items<Resolved>),
    /// `f(E) := F`
    BecomesEqualAt(Resolved, Resolved, Resolved),
    /// `x :: S`
    BecomesMember(Resolved, Resolved),
    /// `x, y :| P`
    BecomesSuchThat(Items<Resolved>, Resolved),
}

/// A change behind its label.
#[derive(Drop)]
pub struct ModelAction {
    pub label: Name,
    pub change: Change,
}

/// An event of the machine.
#[derive(Drop)]
pub struct ModelEvent {
    pub name: Name,
    pub parameters: Items<Entry>,
    pub guards: Items<LabelledFormula>,
    pub actions: Items<ModelAction>,
}

/// What the units of a model declare and say.
#[derive(Drop)]
pub enum ModelPart {
    /// A carrier set: how many stand before it, and its identifier.
    Carrier(u32, Entry),
    Constant(Entry),
    Variable(Entry),
    /// An axiom, or a theorem of a context.
    Axiom(LabelledFormula),
    /// An invariant, or a theorem of the machine.
    Invariant(LabelledFormula),
    Event(ModelEvent),
}

/// A model: its parts in the order of the text, and how many numbers its identifiers and marks have.
#[derive(Drop)]
pub struct EbModel {
    pub parts: Items<ModelPart>,
    pub numbers: u32,
}
