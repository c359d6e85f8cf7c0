//! Kinds of the operators of formulas, by what they are in narrow form.
ghost use Rattle.std.specs.Prelude.{◌≡◌};
ghost use Rattle.eb_narrow.specs.steps.Kinds as step;

use eb_syntax::{Call, Operator};
use eb_term::{Binary, Side, Unary};
use operator_kinds::{is_arrow, is_product, is_surjective, is_total};

/// A unary operator.
#[derive(Clone, Copy)]
pub(crate) enum UnaryKind {
    PowerSet,
    NonemptyPowerSet,
    /// `union`, which is written by a binder.
    UnionOfMembers,
    /// One of other values or predicates.
    Other,
}

/// What a membership asks of its right side.
#[derive(Clone, Copy)]
pub(crate) enum Question {
    /// That it has the value.
    Has,
    /// That it has each member of the value.
    HasMembers,
    /// That it has each of them, and others.
    HasMore,
}

/// A binary operator.
#[derive(Clone, Copy)]
pub(crate) enum BinaryKind {
    Arrow(Operator),
    Product,
    Interval,
    /// A membership, and whether it is one that doesn't hold.
    Membership(Question, bool),
    /// One of other values or predicates.
    Other,
}

pub(crate) fn unary_kind(operator: Unary) -> UnaryKind
    ensures { result ≡ step.unary_kind operator }
{
    match operator {
        Unary::Call(Call::PowerSet) => UnaryKind::PowerSet,
        Unary::Call(Call::NonemptyPowerSet) => UnaryKind::NonemptyPowerSet,
        Unary::Call(Call::GeneralizedUnion) => UnaryKind::UnionOfMembers,
        _ => UnaryKind::Other,
    }
}

pub(crate) fn binary_kind(operator: Binary) -> BinaryKind
    ensures { result ≡ step.binary_kind operator }
{
    match operator {
        Binary::Operator(operator) => operator_kind(operator),
        Binary::Both | Binary::If => BinaryKind::Other,
    }
}

fn operator_kind(operator: Operator) -> BinaryKind
    ensures { result ≡ step.operator_kind operator }
{
    match operator {
        Operator::MemberOf => BinaryKind::Membership(Question::Has, false),
        Operator::NotMemberOf => BinaryKind::Membership(Question::Has, true),
        Operator::SubsetOf => BinaryKind::Membership(Question::HasMembers, false),
        Operator::NotSubsetOf => BinaryKind::Membership(Question::HasMembers, true),
        Operator::ProperSubsetOf => BinaryKind::Membership(Question::HasMore, false),
        Operator::NotProperSubsetOf => BinaryKind::Membership(Question::HasMore, true),
        Operator::UpTo => BinaryKind::Interval,
        Operator::Product => BinaryKind::Product,
        _ => arrow_kind(operator),
    }
}

fn arrow_kind(operator: Operator) -> BinaryKind
    ensures { result ≡ step.arrow_kind operator }
{
    if is_arrow(operator) {
        BinaryKind::Arrow(operator)
    } else {
        BinaryKind::Other
    }
}

/// The kind of a product is that of a value where neither side is a form.
pub(crate) fn kind_with(kind: BinaryKind, is_form: bool) -> BinaryKind
    ensures { result ≡ step.kind_with kind is_form }
{
    match kind {
        BinaryKind::Product => { if is_form { kind } else { BinaryKind::Other } }
        BinaryKind::Arrow(_)
        | BinaryKind::Interval
        | BinaryKind::Membership(_, _)
        | BinaryKind::Other => kind,
    }
}

/// Whether it is that of a form.
pub(crate) fn is_form_kind(kind: BinaryKind) -> bool
    ensures { result ≡ step.is_form_kind kind }
{
    matches!(kind, BinaryKind::Arrow(_) | BinaryKind::Product)
}

/// Whether the arrow asks all of that side.
pub(crate) fn is_whole(side: Side, arrow: Operator) -> bool
    ensures { result ≡ step.is_whole side arrow }
{
    match side {
        Side::First => is_total(arrow),
        Side::Second => is_surjective(arrow),
    }
}
