//! The operators of terms by the number of their parts. Those of the written language have the names that they have in
//! formulas as they are written (`eb_syntax`); the others stand in narrow terms alone.

use eb_syntax::{Call, Operator, Prefix};

/// An operator with one part.
#[derive(Clone, Copy)]
pub enum Unary {
    /// `not P`, or `-a`
    Prefix(Prefix),
    /// `card(E)` and the like
    Call(Call),
    /// `r~`
    Inverse,
    /// Whether an expression has a value. True or False, never Undefined. Narrow terms alone.
    Defined,
    /// Whether a relation relates no value to two. Narrow terms alone.
    Functional,
    /// The first or the second of a pair. Narrow terms alone.
    Part(Side),
}

/// A part of a pair.
#[derive(Clone, Copy)]
pub enum Side {
    First,
    Second,
}

/// An operator with two parts.
#[derive(Clone, Copy)]
pub enum Binary {
    /// `a + b` and the like
    Operator(Operator),
    /// The conjunction that is Undefined where a side is. Narrow terms alone.
    Both,
    /// Of a predicate and a set: the set where the predicate is True, the empty set where it is False.
    If,
}

/// An operator with any number of parts.
#[derive(Clone, Copy)]
pub enum Many {
    /// `{E, ..}`, with one part at least
    Extension,
    /// `partition(E, E1, ..)`
    Partition,
}

/// What a body is made of, at each value of a range.
#[derive(Clone, Copy)]
pub enum Binder {
    /// `!`: the predicate holds at each value.
    ForAll,
    /// `#`: the predicate holds at some value.
    Exists,
    /// The union of the sets at all values. So are comprehensions: `{x.P|E}` collects `If` of P and `{E}`, and
    /// `UNION x.P|E` collects `If` of P and E.
    Collect,
}

/// A set of integers that is no value. It stands to the right of a membership alone, or in a set that does.
#[derive(Clone, Copy)]
pub enum Infinite {
    /// `INT`
    Integers,
    /// `NAT`
    Naturals,
    /// `NAT1`
    PositiveNaturals,
}
