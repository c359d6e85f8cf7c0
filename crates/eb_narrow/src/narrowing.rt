//! Narrow form.
ghost use Rattle.std.specs.Prelude.{◌≡◌, ◌+◌, ◌||◌, IfOk, map, Option, None};
ghost use Rattle.eb_term.specs.declared.term.Term.{Term};
ghost use Rattle.narrow_terms.specs.Shifting.{shift};
ghost use Rattle.narrow_terms.specs.Building as built;
ghost use Rattle.eb_narrow.specs.Narrow as spec;
ghost use Rattle.term_types.specs.Types.{type_of};
ghost use Rattle.eb_narrow.specs.steps.Kinds as kinds;
ghost use Rattle.term_types.specs.Types as types;
ghost use Rattle.eb_narrow.specs.steps.Narrowing as step;

use crate::kinds::{BinaryKind, Question, UnaryKind, is_form_kind, is_whole, unary_kind};
use crate::sets::{is_form, is_integers, kind_at};
use crate::written::{
    all, arrow_has, identity, is_between, is_nonempty, joined, member_at, none_is_out, one_part,
    over, projection, proper_subset, said, side_of, turned, two_parts, union_of_members,
};
use eb_syntax::Operator;
use eb_term::{Binary, Binder, Head, Many, Side, Term, Terms, Unary};
use eb_value::EbType;
use narrow_terms::{
    both, copied, infinite_has, is_defined, negation, no_value, operation, part, partition,
    shifted, sum,
};
use sqlite_items::Items;
use std::alloc::{AllocError, Global};
use term_types::{element_type, type_or_any};

/// The term in narrow form, which has the same meaning and few operators: what stands to the right of a membership is written
/// out, `!` and most relations go by `not`, and what is written with `union`, `partition`, `id`, `prj1` and `prj2` by the others.
/// The term is one that stands under no binder. The only error is want of memory; a term with more than `u32::MAX` binders within
/// one another counts as such. The time and the size of the result grow with the copies of parts that are made:
/// `narrowed_nodes` tells the number of nodes first.
pub fn narrow(alloc: Global, term: &Term) -> Result<Term, AllocError>
    ensures { IfOk result (λ t. t ≡ spec.narrow term.now) }
{
    term_at(alloc, term, 0)
}

/// The term in narrow form under so many binders.
#[cycle(narrowing)]
fn term_at(alloc: Global, term: &Term, depth: u32) -> Result<Term, AllocError>
    ensures { IfOk result (λ t. t ≡ (spec.narrowed term.now).term depth) }
{
    match &term.head {
        Head::Infinite(_) => no_value_of(alloc, term),
        Head::Identity(ty) => identity(alloc, ty, depth),
        Head::Projection(side, first, second) => projection(alloc, *side, first, second, depth),
        Head::Unary(operator, part) => unary_at(alloc, *operator, part.get(), term, depth),
        Head::Binary(operator, left, right) => {
            let kind = kind_at(*operator, left.get(), right.get());
            if is_form_kind(kind) {
                no_value_of(alloc, term)
            } else {
                let left = term_at(alloc, left.get(), depth)?;
                beyond(alloc, right.get(), kind, *operator, left, depth)
            }
        }
        Head::Many(many, parts) => many_at(alloc, *many, parts.as_slice(), depth),
        Head::Over(binder, range, body) => {
            let range = term_at(alloc, range.get(), depth)?;
            let body = body_at(alloc, *binder, body.get(), depth)?;
            over(alloc, *binder, range, body)
        }
        Head::All(binder, ty, body) => {
            let body = body_at(alloc, *binder, body.get(), depth)?;
            all(alloc, *binder, ty, body)
        }
        _ => copied(alloc, term),
    }
}

#[cycle(narrowing)]
fn terms_at(alloc: Global, terms: &[Term], depth: u32) -> Result<Terms, AllocError>
    ensures { IfOk result (λ ts. ts ≡ map (λ e. e.term depth) (map spec.narrowed terms.now)) }
{
    let mut all = Items::new(alloc);
    for term in terms {
        all.push(term_at(alloc, term, depth)?)?;
    }
    Ok(all)
}

/// What stands for a form, by its type.
fn no_value_of(alloc: Global, form: &Term) -> Result<Term, AllocError>
    ensures { IfOk result (λ t. t ≡ step.no_value_of form.now) }
{
    let ty = type_or_any(alloc, form)?;
    no_value(alloc, ty)
}

/// The whole in narrow form, which is this operator of this part.
#[cycle(narrowing)]
fn unary_at(
    alloc: Global,
    operator: Unary,
    part: &Term,
    whole: &Term,
    depth: u32,
) -> Result<Term, AllocError>
    ensures { IfOk result (λ t. t ≡ (kinds.as_unary (kinds.unary_kind operator) operator (type_of whole.now) (spec.narrowed part.now)).term depth) }
{
    match unary_kind(operator) {
        UnaryKind::PowerSet => no_value_of(alloc, whole),
        UnaryKind::NonemptyPowerSet => no_value_of(alloc, whole),
        UnaryKind::UnionOfMembers => {
            let sets = term_at(alloc, part, depth)?;
            let ty = element_type(alloc, part)?;
            union_of_members(alloc, sets, ty, depth)
        }
        UnaryKind::Other => {
            let a = term_at(alloc, part, depth)?;
            one_part(alloc, operator, a)
        }
    }
}

/// A term of two parts behind the first, which is narrow.
#[cycle(narrowing)]
fn beyond(
    alloc: Global,
    right: &Term,
    kind: BinaryKind,
    operator: Binary,
    left: Term,
    depth: u32,
) -> Result<Term, AllocError>
    ensures { IfOk result (λ t. t ≡ kinds.beyond kind operator left (spec.narrowed right.now) depth) }
{
    match kind {
        BinaryKind::Membership(question, is_negated) => {
            let holds = asked(alloc, question, right, depth, &left)?;
            said(alloc, is_negated, holds)
        }
        _ => {
            let right = term_at(alloc, right, depth)?;
            two_parts(alloc, operator, left, right)
        }
    }
}

#[cycle(narrowing)]
fn many_at(alloc: Global, many: Many, parts: &[Term], depth: u32) -> Result<Term, AllocError>
    ensures { IfOk result (λ t. t ≡ (spec.by_many many None (map spec.narrowed parts.now)).term depth) }
{
    let terms = terms_at(alloc, parts, depth)?;
    match many {
        Many::Extension => Ok(Term::many(many, terms)),
        Many::Partition => {
            let ty = first_type(alloc, parts)?;
            partition(alloc, &ty, terms)
        }
    }
}

/// The type of the first of the sets, BOOL where there is none.
fn first_type(alloc: Global, sets: &[Term]) -> Result<EbType, AllocError>
    ensures { IfOk result (λ t. t ≡ step.first_type sets.now) }
{
    match sets {
        [] => Ok(EbType::boolean()),
        [first, ..] => type_or_any(alloc, first),
    }
}

/// The body of a binder, which stands under one more.
#[cycle(narrowing)]
fn body_at(alloc: Global, binder: Binder, body: &Term, depth: u32) -> Result<Term, AllocError>
    ensures { IfOk result (λ t. t ≡ step.turned binder ((spec.narrowed body.now).term (depth + 1))) }
{
    let depth = sum(depth, 1)?;
    let body = term_at(alloc, body, depth)?;
    turned(alloc, binder, body)
}

/// The answer of the right side of a membership to a question on the value of e.
#[cycle(narrowing)]
fn asked(
    alloc: Global,
    question: Question,
    form: &Term,
    depth: u32,
    e: &Term,
) -> Result<Term, AllocError>
    ensures { IfOk result (λ t. t ≡ kinds.asked question (spec.narrowed form.now) depth e.now) }
{
    match question {
        Question::Has => has(alloc, form, depth, 0, e),
        Question::HasMembers => has_members(alloc, form, depth, 0, e),
        Question::HasMore => has_more(alloc, form, depth, e),
    }
}

/// That what stands to the right of a membership has each member of e, and others.
#[cycle(narrowing)]
fn has_more(alloc: Global, form: &Term, depth: u32, e: &Term) -> Result<Term, AllocError>
    ensures { IfOk result (λ t. t ≡ spec.proper_subset (spec.predicate (λ k. e.now)) (spec.narrowed form.now) depth) }
{
    if is_form(form) {
        has_members(alloc, form, depth, 0, e)
    } else {
        let set = term_at(alloc, form, depth)?;
        proper_subset(alloc, e, set)
    }
}

/// That what stands to the right of a membership, under `by` binders more than where it was written, has the value of e.
#[cycle(narrowing)]
fn has(alloc: Global, form: &Term, depth: u32, by: u32, e: &Term) -> Result<Term, AllocError>
    ensures { IfOk result (λ t. t ≡ (spec.narrowed form.now).has depth by e.now) }
{
    match &form.head {
        Head::Infinite(set) => infinite_has(alloc, *set, e),
        Head::Unary(operator, part) => match unary_kind(*operator) {
            UnaryKind::PowerSet => has_members(alloc, part.get(), depth, by, e),
            UnaryKind::NonemptyPowerSet => nonempty_has_members(alloc, part.get(), depth, by, e),
            UnaryKind::UnionOfMembers => beside(alloc, form, depth, by, Operator::MemberOf, e),
            UnaryKind::Other => beside(alloc, form, depth, by, Operator::MemberOf, e),
        },
        Head::Binary(operator, left, right) => match kind_at(*operator, left.get(), right.get()) {
            BinaryKind::Arrow(arrow) => {
                let from = covers(alloc, left.get(), depth, by, arrow, Side::First, e)?;
                let to = covers(alloc, right.get(), depth, by, arrow, Side::Second, e)?;
                arrow_has(alloc, arrow, from, to, e)
            }
            BinaryKind::Product => {
                let first = part_has(alloc, left.get(), depth, by, Side::First, e)?;
                let second = part_has(alloc, right.get(), depth, by, Side::Second, e)?;
                both(alloc, first, second)
            }
            BinaryKind::Interval => {
                let low = end_at(alloc, left.get(), depth, by)?;
                let high = end_at(alloc, right.get(), depth, by)?;
                is_between(alloc, low, high, e)
            }
            BinaryKind::Membership(_, _) => beside(alloc, form, depth, by, Operator::MemberOf, e),
            BinaryKind::Other => beside(alloc, form, depth, by, Operator::MemberOf, e),
        },
        _ => beside(alloc, form, depth, by, Operator::MemberOf, e),
    }
}

/// e beside an expression.
#[cycle(narrowing)]
fn beside(
    alloc: Global,
    set: &Term,
    depth: u32,
    by: u32,
    operator: Operator,
    e: &Term,
) -> Result<Term, AllocError>
    ensures { IfOk result (λ t. t ≡ built.operation operator e.now (shift depth by ((spec.narrowed set.now).term depth))) }
{
    let set = end_at(alloc, set, depth, by)?;
    let e = copied(alloc, e)?;
    operation(alloc, operator, e, set)
}

/// An expression, under more binders than where it was written.
#[cycle(narrowing)]
fn end_at(alloc: Global, set: &Term, depth: u32, by: u32) -> Result<Term, AllocError>
    ensures { IfOk result (λ t. t ≡ shift depth by ((spec.narrowed set.now).term depth)) }
{
    let set = term_at(alloc, set, depth)?;
    shifted(alloc, &set, depth, by)
}

/// What the set of non-empty sets has.
#[cycle(narrowing)]
fn nonempty_has_members(
    alloc: Global,
    form: &Term,
    depth: u32,
    by: u32,
    e: &Term,
) -> Result<Term, AllocError>
    ensures { IfOk result (λ t. t ≡ (spec.nonempty_power_set None (spec.narrowed form.now)).has depth by e.now) }
{
    let all = has_members(alloc, form, depth, by, e)?;
    let ty = type_or_any(alloc, form)?;
    let nonempty = is_nonempty(alloc, e, ty)?;
    both(alloc, all, nonempty)
}

/// That a part of the pair e is in one side of a product.
#[cycle(narrowing)]
fn part_has(
    alloc: Global,
    form: &Term,
    depth: u32,
    by: u32,
    side: Side,
    e: &Term,
) -> Result<Term, AllocError>
    ensures { IfOk result (λ t. t ≡ (spec.narrowed form.now).has depth by (built.part side e.now)) }
{
    let e = part(alloc, side, e)?;
    has(alloc, form, depth, by, &e)
}

/// That the domain or the range of the relation e is within a side of an arrow, or all of it where the arrow asks that.
#[cycle(narrowing)]
fn covers(
    alloc: Global,
    form: &Term,
    depth: u32,
    by: u32,
    arrow: Operator,
    side: Side,
    e: &Term,
) -> Result<Term, AllocError>
    ensures { IfOk result (λ t. t ≡ spec.covers (kinds.is_whole side arrow) (spec.narrowed form.now) depth by (step.side_of side e.now)) }
{
    let set = side_of(alloc, side, e)?;
    if is_whole(side, arrow) {
        is_all(alloc, form, depth, by, &set)
    } else {
        has_members(alloc, form, depth, by, &set)
    }
}

/// That what stands to the right of a membership has each member of e.
#[cycle(narrowing)]
fn has_members(
    alloc: Global,
    form: &Term,
    depth: u32,
    by: u32,
    e: &Term,
) -> Result<Term, AllocError>
    ensures { IfOk result (λ t. t ≡ (spec.narrowed form.now).has_members depth by e.now) }
{
    if !is_form(form) {
        return beside(alloc, form, depth, by, Operator::SubsetOf, e);
    }
    if is_integers(form) {
        return is_defined(alloc, e);
    }
    let given = defined(alloc, form, depth, by, None)?;
    let no_other = has_no_other(alloc, form, depth, by, e)?;
    joined(alloc, given, no_other)
}

/// That no member of e is missing in a form.
#[cycle(narrowing)]
fn has_no_other(
    alloc: Global,
    form: &Term,
    depth: u32,
    by: u32,
    e: &Term,
) -> Result<Term, AllocError>
    ensures { IfOk result (λ t. t ≡ step.has_no_other (types.element_type (types.type_of form.now)) (spec.narrowed form.now) depth by e.now) }
{
    let ty = element_type(alloc, form)?;
    let member = member_at(alloc, depth, by, ty)?;
    let by = sum(by, 1)?;
    let is_in = has(alloc, form, depth, by, &member)?;
    none_is_out(alloc, e, is_in)
}

/// That e is all of what stands to the right of a membership.
#[cycle(narrowing)]
fn is_all(alloc: Global, form: &Term, depth: u32, by: u32, e: &Term) -> Result<Term, AllocError>
    ensures { IfOk result (λ t. t ≡ (spec.narrowed form.now).is_all depth by e.now) }
{
    if !is_form(form) {
        return beside(alloc, form, depth, by, Operator::Equal, e);
    }
    let given = defined(alloc, form, depth, by, None)?;
    let never = negation(alloc, is_defined(alloc, e)?)?;
    joined(alloc, given, never)
}

/// What has been joined, and that each part that is a value is defined.
#[cycle(narrowing)]
fn defined(
    alloc: Global,
    form: &Term,
    depth: u32,
    by: u32,
    before: Option<Term>,
) -> Result<Option<Term>, AllocError>
    ensures { IfOk result (λ o. o ≡ step.joined_on before (step.defined_values (spec.narrowed form.now) depth by)) }
{
    if !is_form(form) {
        let value = end_at(alloc, form, depth, by)?;
        let is_defined = is_defined(alloc, &value)?;
        return Ok(Some(joined(alloc, before, is_defined)?));
    }
    match &form.head {
        Head::Unary(_, part) => defined(alloc, part.get(), depth, by, before),
        Head::Binary(_, left, right) => {
            let before = defined(alloc, left.get(), depth, by, before)?;
            defined(alloc, right.get(), depth, by, before)
        }
        _ => Ok(before),
    }
}
