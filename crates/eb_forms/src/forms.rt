//! Forms, and where they stand.
ghost use Rattle.std.specs.Prelude.{◌≡◌, IfOk, ◌&&◌, if◌then◌else◌, Some, None, map, slice_get};
ghost use Rattle.std.specs.Option.{option_or};
ghost use Rattle.eb_forms.specs.declared.kind.Kind.TheVariants as kind;
ghost use Rattle.eb_forms.specs.Forms as spec;

use crate::kind::Kind;
use eb_resolved::{Resolved, ResolvedNode};
use eb_syntax::{Call, Constant, Operator};
use eb_value::{EbType, Shape};
use operator_kinds::{is_arrow, is_product, is_surjective, is_total};
use std::alloc::{AllocError, Global};
use type_equations::Solution;

/// A formula: its kind, its place in the text, in bytes, and the place of the first form in it that stands where it may not.
#[derive(Clone, Copy)]
pub struct Judged {
    pub kind: Kind,
    pub place: u32,
    pub within: Option<u32>,
}

fn fits(kind: Kind, allowed: Kind) -> bool
    ensures { result ≡ spec.fits kind allowed }
{
    match (kind, allowed) {
        (Kind::Value, _) => true,
        (Kind::Integers, Kind::Value) => false,
        (Kind::Integers, Kind::Integers | Kind::Form) => true,
        (Kind::Form, Kind::Form) => true,
        (Kind::Form, Kind::Value | Kind::Integers) => false,
    }
}

/// What a constant is.
pub fn constant_kind(constant: Constant) -> Kind
    ensures { result ≡ spec.constant_kind constant }
{
    match constant {
        Constant::Integers | Constant::Naturals | Constant::PositiveNaturals => Kind::Integers,
        Constant::Truth
        | Constant::Falsity
        | Constant::Booleans
        | Constant::TrueValue
        | Constant::FalseValue
        | Constant::Identity
        | Constant::FirstProjection
        | Constant::SecondProjection
        | Constant::EmptySet => Kind::Value,
    }
}

/// What a call is.
pub fn call_kind(call: Call) -> Kind
    ensures { result ≡ spec.call_kind call }
{
    match call {
        Call::PowerSet | Call::NonemptyPowerSet => Kind::Form,
        Call::Cardinality
        | Call::Minimum
        | Call::Maximum
        | Call::Domain
        | Call::Range
        | Call::GeneralizedUnion
        | Call::GeneralizedIntersection
        | Call::BoolOf
        | Call::Finite => Kind::Value,
    }
}

fn is_value(kind: Kind) -> bool
    ensures { result ≡ spec.is_value kind }
{
    fits(kind, Kind::Value)
}

/// What an operator of two such parts is; a predicate counts as a value.
pub fn operator_kind(operator: Operator, left: Kind, right: Kind) -> Kind
    ensures { result ≡ spec.operator_kind operator left right }
{
    let is_form = is_arrow(operator)
        || (is_product(operator) && !(is_value(left) && is_value(right)));
    if is_form { Kind::Form } else { Kind::Value }
}

fn side_allowed(is_whole: bool) -> Kind
    ensures { result ≡ spec.side_allowed is_whole }
{
    if is_whole { Kind::Integers } else { Kind::Form }
}

fn left_allowed(operator: Operator) -> Kind
    ensures { result ≡ spec.left_allowed operator }
{
    if is_arrow(operator) {
        side_allowed(is_total(operator))
    } else if is_product(operator) {
        Kind::Form
    } else {
        Kind::Value
    }
}

fn is_proper(operator: Operator) -> bool
    ensures { result ≡ spec.is_proper operator }
{
    matches!(
        operator,
        Operator::ProperSubsetOf | Operator::NotProperSubsetOf
    )
}

fn takes_forms(operator: Operator) -> bool
    ensures { result ≡ spec.takes_forms operator }
{
    matches!(
        operator,
        Operator::MemberOf | Operator::NotMemberOf | Operator::SubsetOf | Operator::NotSubsetOf
    )
}

fn right_allowed(operator: Operator) -> Kind
    ensures { result ≡ spec.right_allowed operator }
{
    if is_arrow(operator) {
        side_allowed(is_surjective(operator))
    } else if is_product(operator) || takes_forms(operator) {
        Kind::Form
    } else if is_proper(operator) {
        Kind::Integers
    } else {
        Kind::Value
    }
}

/// Whether the type has integers.
#[cycle(integers)]
fn has_integers(ty: &EbType) -> bool
    ensures { result ≡ spec.has_integers ty.now }
{
    match &ty.shape {
        Shape::Integer => true,
        Shape::Bool | Shape::Carrier(_) => false,
        Shape::Product(first, second) => has_integers(first.get()) || has_integers(second.get()),
        Shape::Power(member) => has_integers(member.get()),
    }
}

fn is_relation(constant: Constant) -> bool
    ensures { result ≡ spec.is_relation constant }
{
    matches!(
        constant,
        Constant::Identity | Constant::FirstProjection | Constant::SecondProjection
    )
}

fn judgement(kind: Kind, place: u32, within: Option<u32>) -> Judged
    ensures { result ≡ spec.judged kind place within }
{
    Judged {
        kind,
        place,
        within,
    }
}

/// The place of the first form that may not stand there, of a formula where this kind is allowed.
pub(crate) fn misplaced(allowed: Kind, formula: Judged) -> Option<u32>
    ensures { result ≡ spec.misplaced allowed formula }
{
    if fits(formula.kind, allowed) {
        formula.within
    } else {
        Some(formula.place)
    }
}

fn both_misplaced(first: Judged, second: Judged) -> Option<u32>
    ensures { result ≡ spec.both_misplaced first second }
{
    misplaced(Kind::Value, first).or(misplaced(Kind::Value, second))
}

/// Whether the type of this number has integers. The only error is want of memory.
fn type_has_integers(alloc: Global, types: &Solution, number: u32) -> Result<bool, AllocError>
    ensures { IfOk result (λ b. b ≡ spec.type_has_integers (slice_get types.now number)) }
{
    match types.type_of(alloc, number)? {
        Some(ty) => Ok(has_integers(&ty)),
        None => Ok(false),
    }
}

/// A mark: `id`, `prj1` and `prj2` over integers may stand nowhere.
fn mark_at(
    alloc: Global,
    types: &Solution,
    constant: Constant,
    number: u32,
    place: u32,
) -> Result<Judged, AllocError>
    ensures { IfOk result (λ j. j ≡ spec.judged kind.Value place (if (spec.is_relation constant && spec.type_has_integers (slice_get types.now number)) then Some place else None)) }
{
    if is_relation(constant) && type_has_integers(alloc, types, number)? {
        Ok(judgement(Kind::Value, place, Some(place)))
    } else {
        Ok(judgement(Kind::Value, place, None))
    }
}

/// A formula, by its parts. The only error is want of memory.
#[cycle(judging)]
pub(crate) fn judge(
    alloc: Global,
    types: &Solution,
    formula: &Resolved,
) -> Result<Judged, AllocError>
    ensures { IfOk result (λ j. j ≡ spec.judge types.now formula.now) }
{
    let place = formula.place;
    match &formula.node {
        ResolvedNode::Number(_)
        | ResolvedNode::Identifier(_)
        | ResolvedNode::Primed(_)
        | ResolvedNode::Unknown(_, _) => Ok(judgement(Kind::Value, place, None)),
        ResolvedNode::Constant(constant) => Ok(judgement(constant_kind(*constant), place, None)),
        ResolvedNode::Mark(constant, number) => mark_at(alloc, types, *constant, *number, place),
        ResolvedNode::Prefix(_, part) => {
            let part = judge(alloc, types, part.get())?;
            Ok(judgement(Kind::Value, place, misplaced(Kind::Value, part)))
        }
        ResolvedNode::Call(call, part) => {
            let kind = call_kind(*call);
            let part = judge(alloc, types, part.get())?;
            Ok(judgement(kind, place, misplaced(kind, part)))
        }
        ResolvedNode::Inverse(part) => {
            let part = judge(alloc, types, part.get())?;
            Ok(judgement(Kind::Value, place, misplaced(Kind::Value, part)))
        }
        ResolvedNode::Operator(operator, left, right) => {
            let left = judge(alloc, types, left.get())?;
            let right = judge(alloc, types, right.get())?;
            Ok(operation(*operator, place, left, right))
        }
        ResolvedNode::Quantifier(_, _, part) => {
            let part = judge(alloc, types, part.get())?;
            Ok(judgement(Kind::Value, place, misplaced(Kind::Value, part)))
        }
        ResolvedNode::Binder(_, _, _, first, second)
        | ResolvedNode::Comprehension(_, first, second)
        | ResolvedNode::Builder(_, first, second) => {
            let first = judge(alloc, types, first.get())?;
            let second = judge(alloc, types, second.get())?;
            Ok(judgement(Kind::Value, place, both_misplaced(first, second)))
        }
        ResolvedNode::Extension(members) => {
            let within = all_misplaced(alloc, types, members.as_slice())?;
            Ok(judgement(Kind::Value, place, within))
        }
        ResolvedNode::Partition(members) => {
            let within = all_misplaced(alloc, types, members.as_slice())?;
            Ok(judgement(Kind::Value, place, within))
        }
    }
}

fn operation(operator: Operator, place: u32, left: Judged, right: Judged) -> Judged
    ensures { result ≡ spec.judged (spec.operator_kind operator left.kind right.kind) place (option_or (spec.misplaced (spec.left_allowed operator) left) (spec.misplaced (spec.right_allowed operator) right)) }
{
    let kind = operator_kind(operator, left.kind, right.kind);
    let within = misplaced(left_allowed(operator), left).or(misplaced(
        right_allowed(operator),
        right,
    ));
    judgement(kind, place, within)
}

/// The place of the first form in the formulas that stands where it may not.
#[cycle(judging)]
fn all_misplaced(
    alloc: Global,
    types: &Solution,
    formulas: &[Resolved],
) -> Result<Option<u32>, AllocError>
    ensures { IfOk result (λ first. first ≡ spec.all_misplaced (map (spec.judge types.now) formulas.now)) }
{
    for formula in formulas {
        let formula = judge(alloc, types, formula)?;
        let first = misplaced(Kind::Value, formula);
        if first.is_some() {
            return Ok(first);
        }
    }
    Ok(None)
}
