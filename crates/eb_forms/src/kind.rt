//! Kinds of expressions by what they stand for.

/// What an expression is, or what may stand at a place. What is of an earlier kind may stand where a later one is allowed.
#[derive(Clone, Copy, Debug, PartialEq, Eq)]
pub enum Kind {
    /// A value. A predicate counts as one.
    Value,
    /// `INT`, `NAT` or `NAT1`
    Integers,
    /// Another set that is no value: of sets, of relations, or of pairs with one in it.
    Form,
}
