use eb_names::{Name, Names};
use sqlite_items::Items;

/// What a test is to reach, after the events of a sequence.
#[derive(Debug, Drop)]
pub enum Goal {
    /// `take e`: this event takes place.
    Take(Name),
    /// `false e i`: of this event's guards the one with this number is false, and every other one true.
    False(Name, i64),
}

/// A question about a model. An event or unit is named by its name, and a formula by the names of its unit or event and its
/// label, which is without its `@`.
#[derive(Debug, Drop)]
pub enum Query {
    /// `axioms`: can all axioms be true?
    Axioms,
    /// `enabled e`: is there a state in which the event may take place?
    Enabled(Name),
    /// `invariant e @l`: can the event break the invariant?
    Invariant(Name, Name),
    /// `deadlock`: is there a state in which no event may take place?
    Deadlock,
    /// `sequence [e1, ..]`: can these events take place, one after the other?
    Sequence(Names),
    /// `wd U @l`: can the formula be undefined?
    WellDefined(Name, Name),
    /// `theorem U @l`: can the theorem be false?
    Theorem(Name, Name),
    /// `goal [e1, ..] ..`: can the goal be reached after these events?
    Goal(Names, Goal),
}

/// The queries of a block, in the order of the text.
pub type Queries = Items<Query>;
