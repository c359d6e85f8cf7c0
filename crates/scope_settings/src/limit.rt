//! Limits.

/// What is limited, in the order in which limits are judged.
#[derive(Clone, Copy, Debug, PartialEq, Eq)]
pub enum Limit {
    /// The integers of the scope: -32768..32767, and at least one.
    Int,
    /// The atoms of a carrier set: 1..16.
    Size,
    /// The events of a sequence: 0..8.
    Depth,
    /// The events of a machine besides INITIALISATION: at most 200.
    Events,
    /// The identifiers of a binder: at most 8.
    Binder,
    /// The sets of a `partition` behind its first: at most 64.
    Partition,
    /// The values that the members of a set may be, for each set inside a choice's type: at most 4,096.
    Element,
    /// The values of a type that a binder ranges over: at most 4,096.
    Bound,
    /// The nodes of a problem: at most 1,000,000.
    Nodes,
}
