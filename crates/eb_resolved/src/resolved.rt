//! Formulas with numbers in place of names.

use eb_names::Name;
use eb_syntax::{Binder, Bound, Call, Constant, Operator, Prefix, Quantifier};
use numbered_names::Entry;
use sqlite_items::{Boxed, Items};

/// A formula with numbers in place of names and without parentheses, and the place of its first token in the text, in bytes:
/// that of a formula in parentheses is its own first token.
///
/// Identifiers where they are declared or bound and marks are numbered together, in the order in which they stand in the text;
/// an identifier that `{E|P}` binds stands where E uses it first.
#[cycle(resolved)]
#[derive(Drop)]
pub struct Resolved {
    pub node: ResolvedNode,
    pub place: u32,
}

/// How such a formula is made.
#[cycle(resolved)]
#[derive(Drop)]
pub enum ResolvedNode {
    Number(i64),
    /// An identifier: the number of what it stands for.
    Identifier(u32),
    /// A declared identifier with a `'`: its number.
    Primed(u32),
    /// A name that stands for nothing, and whether with a `'`.
    Unknown(Name, bool),
    Constant(Constant),
    /// `{}`, `id`, `prj1` or `prj2`: its own number, by which it has a type.
    Mark(Constant, u32),
    Prefix(Prefix, Boxed<Resolved>),
    Call(Call, Boxed<Resolved>),
    /// `r~`
    Inverse(Boxed<Resolved>),
    Operator(Operator, Boxed<Resolved>, Boxed<Resolved>),
    /// The names that are bound, each with its number, and the predicate.
    Quantifier(Quantifier, Items<Entry>, Boxed<Resolved>),
    /// What is bound, the number of its first identifier, which the next ones follow, the predicate and the expression.
    Binder(Binder, Bound, u32, Boxed<Resolved>, Boxed<Resolved>),
    /// `{x.P|E}`
    Comprehension(Items<Entry>, Boxed<Resolved>, Boxed<Resolved>),
    /// `{E|P}`: the names that it binds, in order of first use.
    Builder(Items<Entry>, Boxed<Resolved>, Boxed<Resolved>),
    /// The members between braces, one at least.
    Extension(Items<Resolved>),
    /// `partition(E, E1, ..)`
    Partition(Items<Resolved>),
}
