//! Which terms are forms: sets that are no values.
ghost use Rattle.std.specs.Prelude.{◌≡◌, ◌||◌};
ghost use Rattle.eb_narrow.specs.Narrow as spec;
ghost use Rattle.eb_narrow.specs.steps.Kinds as kinds;
ghost use Rattle.eb_narrow.specs.steps.Narrowing as step;

use crate::kinds::{BinaryKind, UnaryKind, binary_kind, kind_with, unary_kind};
use eb_term::{Binary, Head, Infinite, Term};

/// Whether the term is a set that is no value.
pub(crate) fn is_form(term: &Term) -> bool
    ensures { result ≡ (spec.narrowed term.now).is_form }
{
    match &term.head {
        Head::Infinite(_) => true,
        Head::Unary(operator, _) => is_power_set(unary_kind(*operator)),
        Head::Binary(operator, left, right) => match binary_kind(*operator) {
            BinaryKind::Arrow(_) => true,
            BinaryKind::Product => is_form(left.get()) || is_form(right.get()),
            _ => false,
        },
        _ => false,
    }
}

fn is_power_set(kind: UnaryKind) -> bool
    ensures { result ≡ step.is_power_set kind }
{
    matches!(kind, UnaryKind::PowerSet | UnaryKind::NonemptyPowerSet)
}

/// The kind of a binary operator of these parts.
pub(crate) fn kind_at(operator: Binary, left: &Term, right: &Term) -> BinaryKind
    ensures { result ≡ kinds.kind_with (kinds.binary_kind operator) ((spec.narrowed left.now).is_form || (spec.narrowed right.now).is_form) }
{
    let is_form = is_form(left) || is_form(right);
    kind_with(binary_kind(operator), is_form)
}

/// Whether the term is `INT`.
pub(crate) fn is_integers(term: &Term) -> bool
    ensures { result ≡ step.is_integers term.now }
{
    match &term.head {
        Head::Infinite(set) => matches!(set, Infinite::Integers),
        _ => false,
    }
}
