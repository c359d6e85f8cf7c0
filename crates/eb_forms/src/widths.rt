//! How wide binders and partitions are.
ghost use Rattle.std.specs.Prelude.{◌≡◌, length, map};
ghost use Rattle.eb_forms.specs.Widths as spec;
ghost use Rattle.eb_syntax.specs.declared.ast.Bound.TheVariants as bound;

use eb_resolved::{Resolved, ResolvedNode};
use eb_syntax::{Bound, Mark};

/// Something of a formula is wider than a limit.
#[derive(Clone, Copy, Debug, PartialEq, Eq)]
pub struct Wide {
    /// A binder has more than 8 identifiers.
    pub binder: bool,
    /// A `partition` has more than 64 sets behind the first.
    pub partition: bool,
}

/// Nothing is wide.
pub(crate) fn narrow() -> Wide
    ensures { result ≡ spec.narrow }
{
    Wide {
        binder: false,
        partition: false,
    }
}

/// What is wide in either.
pub(crate) fn either(first: Wide, second: Wide) -> Wide
    ensures { result ≡ spec.either first second }
{
    Wide {
        binder: first.binder || second.binder,
        partition: first.partition || second.partition,
    }
}

fn with_binder(count: usize, part: Wide) -> Wide
    ensures { result ≡ spec.with_binder count part }
{
    Wide {
        binder: count > 8 || part.binder,
        partition: part.partition,
    }
}

fn with_partition(count: usize, part: Wide) -> Wide
    ensures { result ≡ spec.with_partition count part }
{
    Wide {
        binder: part.binder,
        partition: count > 65 || part.partition,
    }
}

/// How many identifiers a pattern has.
fn pattern_count(marks: &[Mark]) -> usize
    ensures { result ≡ length (spec.bound_identifiers (bound.Pattern marks.now)) }
{
    let mut count: usize = 0;
    for mark in marks {
        if let Mark::Identifier(_) = mark {
            count += 1;
        }
    }
    count
}

/// How many identifiers a binder binds.
fn bound_count(bound: &Bound) -> usize
    ensures { result ≡ length (spec.bound_identifiers bound.now) }
{
    match bound {
        Bound::Identifiers(identifiers) => identifiers.len(),
        Bound::Pattern(marks) => pattern_count(marks.as_slice()),
    }
}

/// What is wide in a formula.
#[cycle(widening)]
pub(crate) fn widths_of(formula: &Resolved) -> Wide
    ensures { result ≡ spec.widths_of formula.now }
{
    match &formula.node {
        ResolvedNode::Number(_)
        | ResolvedNode::Identifier(_)
        | ResolvedNode::Primed(_)
        | ResolvedNode::Unknown(_, _)
        | ResolvedNode::Constant(_)
        | ResolvedNode::Mark(_, _) => narrow(),
        ResolvedNode::Prefix(_, part) => widths_of(part.get()),
        ResolvedNode::Call(_, part) => widths_of(part.get()),
        ResolvedNode::Inverse(part) => widths_of(part.get()),
        ResolvedNode::Operator(_, left, right) => either(
            widths_of(left.get()),
            widths_of(right.get()),
        ),
        ResolvedNode::Quantifier(_, bound, part) => with_binder(bound.len(), widths_of(part.get())),
        ResolvedNode::Binder(_, bound, _, condition, value) => {
            let parts = either(widths_of(condition.get()), widths_of(value.get()));
            with_binder(bound_count(bound), parts)
        }
        ResolvedNode::Comprehension(bound, condition, value) => {
            with_binder(
                bound.len(),
                either(widths_of(condition.get()), widths_of(value.get())),
            )
        }
        ResolvedNode::Builder(bound, value, condition) => {
            with_binder(
                bound.len(),
                either(widths_of(value.get()), widths_of(condition.get())),
            )
        }
        ResolvedNode::Extension(members) => any(members.as_slice()),
        ResolvedNode::Partition(members) => with_partition(members.len(), any(members.as_slice())),
    }
}

/// What is wide in any of the formulas.
#[cycle(widening)]
pub(crate) fn any(formulas: &[Resolved]) -> Wide
    ensures { result ≡ spec.any (map spec.widths_of formulas.now) }
{
    let mut found = narrow();
    for formula in formulas {
        found = either(found, widths_of(formula));
    }
    found
}
