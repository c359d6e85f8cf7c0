//! What narrow form writes of narrow parts. The only error of each function is want of memory.
ghost use Rattle.std.specs.Prelude.{◌≡◌, ◌+◌, IfOk, [], ◌∷◌, ◌++◌, pos};
ghost use Rattle.eb_syntax.specs.declared.ast.Operator.TheVariants as op;
ghost use Rattle.eb_term.specs.declared.operators.Binder.TheVariants as binder;
ghost use Rattle.eb_term.specs.Terms as term;
ghost use Rattle.eb_meaning.specs.Meaning.{is_function, is_injection};
ghost use Rattle.narrow_terms.specs.Building as built;
ghost use Rattle.eb_narrow.specs.Narrow as spec;
ghost use Rattle.eb_narrow.specs.steps.Kinds as kinds;
ghost use Rattle.eb_narrow.specs.steps.Narrowing as step;

use eb_syntax::{Call, Operator, Prefix};
use eb_term::{Binary, Binder, SharedType, Side, Term, Unary};
use eb_value::EbType;
use narrow_terms::{
    both, call, copied, empty_set, extension, functional, inverse, is_defined, negation, operation,
    sum, whole,
};
use operator_kinds::{is_function, is_injection};
use std::alloc::{AllocError, Global};

/// What has been joined, and one more.
pub(crate) fn joined(alloc: Global, before: Option<Term>, next: Term) -> Result<Term, AllocError>
    ensures { IfOk result (λ t. t ≡ step.joined before next) }
{
    match before {
        Some(before) => both(alloc, before, next),
        None => Ok(next),
    }
}

/// The value of the binder that stands next under these.
pub(crate) fn member_at(alloc: Global, depth: u32, by: u32, ty: EbType) -> Result<Term, AllocError>
    ensures { IfOk result (λ t. t ≡ built.whole (depth + by) ty) }
{
    let binder = sum(depth, by)?;
    let ty = SharedType::new(alloc, ty)?;
    whole(alloc, binder, &ty)
}

/// That of no member of e the predicate is False.
pub(crate) fn none_is_out(alloc: Global, e: &Term, is_in: Term) -> Result<Term, AllocError>
    ensures { IfOk result (λ t. t ≡ built.negation (term.over binder.Exists e.now (built.negation is_in))) }
{
    let is_out = negation(alloc, is_in)?;
    let e = copied(alloc, e)?;
    let some_out = Term::over(alloc, Binder::Exists, e, is_out)?;
    negation(alloc, some_out)
}

/// That e isn't empty.
pub(crate) fn is_nonempty(alloc: Global, e: &Term, ty: EbType) -> Result<Term, AllocError>
    ensures { IfOk result (λ t. t ≡ built.negation (built.equal e.now (built.empty_set ty))) }
{
    let none = empty_set(alloc, ty)?;
    let e = copied(alloc, e)?;
    differ(alloc, e, none)
}

/// The domain, or the range.
pub(crate) fn side_of(alloc: Global, side: Side, e: &Term) -> Result<Term, AllocError>
    ensures { IfOk result (λ t. t ≡ step.side_of side e.now) }
{
    let e = copied(alloc, e)?;
    match side {
        Side::First => call(alloc, Call::Domain, e),
        Side::Second => call(alloc, Call::Range, e),
    }
}

/// That both sides of the relation e are as an arrow asks, and that it is functional and injective where the arrow asks that.
pub(crate) fn arrow_has(
    alloc: Global,
    arrow: Operator,
    from: Term,
    to: Term,
    e: &Term,
) -> Result<Term, AllocError>
    ensures { IfOk result (λ t. t ≡ built.both_of (from ∷ to ∷ (spec.if_asked (is_function arrow) (built.functional e.now) ++ spec.if_asked (is_injection arrow) (built.functional (built.inverse e.now))))) }
{
    let sides = both(alloc, from, to)?;
    let sides = if is_function(arrow) {
        also_functional(alloc, sides, copied(alloc, e)?)?
    } else {
        sides
    };
    if is_injection(arrow) {
        let turned = inverse(alloc, copied(alloc, e)?)?;
        also_functional(alloc, sides, turned)
    } else {
        Ok(sides)
    }
}

fn also_functional(alloc: Global, before: Term, relation: Term) -> Result<Term, AllocError>
    ensures { IfOk result (λ t. t ≡ built.both before (built.functional relation)) }
{
    let functional = functional(alloc, relation)?;
    both(alloc, before, functional)
}

/// That e lies between two ends.
pub(crate) fn is_between(alloc: Global, low: Term, high: Term, e: &Term) -> Result<Term, AllocError>
    ensures { IfOk result (λ t. t ≡ built.both (built.at_most low e.now) (built.at_most e.now high)) }
{
    let above = operation(alloc, Operator::AtMost, low, copied(alloc, e)?)?;
    let below = operation(alloc, Operator::AtMost, copied(alloc, e)?, high)?;
    both(alloc, above, below)
}

/// `0 - a`
fn negative(alloc: Global, a: Term) -> Result<Term, AllocError>
    ensures { IfOk result (λ t. t ≡ built.operation op.Minus (term.integer (pos 0)) a) }
{
    let zero = Term::integer(alloc, 0)?;
    operation(alloc, Operator::Minus, zero, a)
}

/// `e <: s`
fn subset(alloc: Global, e: &Term, set: &Term) -> Result<Term, AllocError>
    ensures { IfOk result (λ t. t ≡ built.subset e.now set.now) }
{
    let e = copied(alloc, e)?;
    let set = copied(alloc, set)?;
    operation(alloc, Operator::SubsetOf, e, set)
}

/// `not e = s`
fn differ(alloc: Global, e: Term, set: Term) -> Result<Term, AllocError>
    ensures { IfOk result (λ t. t ≡ built.negation (built.equal e set)) }
{
    let same = operation(alloc, Operator::Equal, e, set)?;
    negation(alloc, same)
}

/// `e <<: s`
pub(crate) fn proper_subset(alloc: Global, e: &Term, set: Term) -> Result<Term, AllocError>
    ensures { IfOk result (λ t. t ≡ built.conjunction (built.subset e.now set) (built.negation (built.equal e.now set))) }
{
    let within = subset(alloc, e, &set)?;
    let e = copied(alloc, e)?;
    let differ = differ(alloc, e, set)?;
    operation(alloc, Operator::And, within, differ)
}

/// Not that, where it is so asked.
pub(crate) fn said(alloc: Global, is_negated: bool, p: Term) -> Result<Term, AllocError>
    ensures { IfOk result (λ t. t ≡ kinds.said is_negated p) }
{
    if is_negated {
        negation(alloc, p)
    } else {
        Ok(p)
    }
}

/// The union of the members of a set of sets.
pub(crate) fn union_of_members(
    alloc: Global,
    sets: Term,
    ty: EbType,
    depth: u32,
) -> Result<Term, AllocError>
    ensures { IfOk result (λ t. t ≡ term.over binder.Collect sets (built.whole depth ty)) }
{
    let member = member_at(alloc, depth, 0, ty)?;
    Term::over(alloc, Binder::Collect, sets, member)
}

/// What a unary operator is written as, where it isn't one of a kind of its own.
pub(crate) fn one_part(alloc: Global, operator: Unary, a: Term) -> Result<Term, AllocError>
    ensures { IfOk result (λ t. t ≡ kinds.one_part operator a) }
{
    match operator {
        Unary::Prefix(Prefix::Not) => negation(alloc, a),
        Unary::Prefix(Prefix::Minus) => negative(alloc, a),
        Unary::Call(Call::Finite) => is_defined(alloc, &a),
        _ => Term::unary(alloc, operator, a),
    }
}

/// What a binary operator is written as, where it isn't one of a kind of its own.
pub(crate) fn two_parts(
    alloc: Global,
    operator: Binary,
    a: Term,
    b: Term,
) -> Result<Term, AllocError>
    ensures { IfOk result (λ t. t ≡ kinds.two_parts operator a b) }
{
    match operator {
        Binary::Operator(operator) => compared(alloc, operator, a, b),
        Binary::Both | Binary::If => Term::binary(alloc, operator, a, b),
    }
}

/// A relation or an operation of two narrow sides, which is no membership.
fn compared(alloc: Global, operator: Operator, a: Term, b: Term) -> Result<Term, AllocError>
    ensures { IfOk result (λ t. t ≡ kinds.compared operator a b) }
{
    match operator {
        Operator::Unequal => negation(alloc, operation(alloc, Operator::Equal, a, b)?),
        Operator::Less => negation(alloc, operation(alloc, Operator::AtMost, b, a)?),
        Operator::Greater => negation(alloc, operation(alloc, Operator::AtMost, a, b)?),
        Operator::AtLeast => operation(alloc, Operator::AtMost, b, a),
        Operator::BackwardComposition => operation(alloc, Operator::ForwardComposition, b, a),
        _ => operation(alloc, operator, a, b),
    }
}

fn narrow_binder(binder: Binder) -> Binder
    ensures { result ≡ step.narrow_binder binder }
{
    match binder {
        Binder::ForAll | Binder::Exists => Binder::Exists,
        Binder::Collect => Binder::Collect,
    }
}

/// `!` is not-exists-not.
pub(crate) fn turned(alloc: Global, binder: Binder, term: Term) -> Result<Term, AllocError>
    ensures { IfOk result (λ t. t ≡ step.turned binder term) }
{
    match binder {
        Binder::ForAll => negation(alloc, term),
        Binder::Exists | Binder::Collect => Ok(term),
    }
}

/// A binder over a range.
pub(crate) fn over(
    alloc: Global,
    binder: Binder,
    range: Term,
    body: Term,
) -> Result<Term, AllocError>
    ensures { IfOk result (λ t. t ≡ step.turned binder (term.over (step.narrow_binder binder) range body)) }
{
    let over = Term::over(alloc, narrow_binder(binder), range, body)?;
    turned(alloc, binder, over)
}

/// A binder over all values of a type.
pub(crate) fn all(
    alloc: Global,
    binder: Binder,
    ty: &SharedType,
    body: Term,
) -> Result<Term, AllocError>
    ensures { IfOk result (λ t. t ≡ step.turned binder (term.all (step.narrow_binder binder) ty.now body)) }
{
    let all = Term::all(alloc, narrow_binder(binder), ty, body)?;
    turned(alloc, binder, all)
}

/// `id`
pub(crate) fn identity(alloc: Global, ty: &SharedType, depth: u32) -> Result<Term, AllocError>
    ensures { IfOk result (λ t. t ≡ spec.identity ty.now depth) }
{
    let first = whole(alloc, depth, ty)?;
    let second = whole(alloc, depth, ty)?;
    let pair = operation(alloc, Operator::MapsTo, first, second)?;
    let set = extension(alloc, pair)?;
    Term::all(alloc, Binder::Collect, ty, set)
}

/// `prj1` and `prj2`
pub(crate) fn projection(
    alloc: Global,
    side: Side,
    first: &SharedType,
    second: &SharedType,
    depth: u32,
) -> Result<Term, AllocError>
    ensures { IfOk result (λ t. t ≡ spec.projection side first.now second.now depth) }
{
    let inner = sum(depth, 1)?;
    let pair = operation(
        alloc,
        Operator::MapsTo,
        whole(alloc, depth, first)?,
        whole(alloc, inner, second)?,
    )?;
    let part = match side {
        Side::First => whole(alloc, depth, first)?,
        Side::Second => whole(alloc, inner, second)?,
    };
    let set = extension(alloc, operation(alloc, Operator::MapsTo, pair, part)?)?;
    let set = Term::all(alloc, Binder::Collect, second, set)?;
    Term::all(alloc, Binder::Collect, first, set)
}
