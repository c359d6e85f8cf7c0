//! What narrow form writes of `partition`. The only error of each function is want of memory.
ghost use Rattle.std.specs.Prelude.{◌≡◌, IfOk};
ghost use Rattle.narrow_terms.specs.Building as spec;
ghost use Rattle.narrow_terms.specs.steps.Partitions as step;

use crate::build::{both, empty_set, operation};
use crate::shift::copied;
use eb_syntax::Operator;
use eb_term::{Term, Terms};
use eb_value::EbType;
use std::alloc::{AllocError, Global};

/// The union of the sets before, and what has been joined.
#[derive(Drop)]
struct Apart {
    union: Term,
    all: Term,
}

/// `partition(s, s1, ..)` of sets of this type: that s is the union of the others, and that no two of these share a member. Of no
/// sets it is `false`. The only error is want of memory.
pub fn partition(alloc: Global, ty: &EbType, sets: Terms) -> Result<Term, AllocError>
    ensures { IfOk result (λ t. t ≡ spec.partition ty.now sets) }
{
    match sets.as_slice() {
        [] => Ok(Term::truth(false)),
        [whole, parts @ ..] => split(alloc, ty, whole, parts),
    }
}

fn split(alloc: Global, ty: &EbType, whole: &Term, parts: &[Term]) -> Result<Term, AllocError>
    ensures { IfOk result (λ t. t ≡ spec.both_on (spec.equal whole.now (spec.union_of ty.now parts.now)) (spec.disjoint_parts ty.now parts.now)) }
{
    let union = union_of(alloc, ty, parts)?;
    let whole = copied(alloc, whole)?;
    let is_union = operation(alloc, Operator::Equal, whole, union)?;
    disjoint(alloc, ty, is_union, parts)
}

/// The union of the sets.
fn union_of(alloc: Global, ty: &EbType, sets: &[Term]) -> Result<Term, AllocError>
    ensures { IfOk result (λ t. t ≡ spec.union_of ty.now sets.now) }
{
    match sets {
        [] => none(alloc, ty),
        [first, others @ ..] => {
            let first = copied(alloc, first)?;
            union_on(alloc, first, others)
        }
    }
}

fn none(alloc: Global, ty: &EbType) -> Result<Term, AllocError>
    ensures { IfOk result (λ t. t ≡ spec.empty_set ty.now) }
{
    let ty = ty.copied(alloc)?;
    empty_set(alloc, ty)
}

fn union_on(alloc: Global, first: Term, others: &[Term]) -> Result<Term, AllocError>
    ensures { IfOk result (λ t. t ≡ spec.union_on first others.now) }
{
    let mut union = first;
    for set in others {
        union = with(alloc, union, set)?;
    }
    Ok(union)
}

fn with(alloc: Global, union: Term, set: &Term) -> Result<Term, AllocError>
    ensures { IfOk result (λ t. t ≡ step.with_set union set.now) }
{
    let set = copied(alloc, set)?;
    operation(alloc, Operator::Union, union, set)
}

/// What has been joined, and that no two of the sets share a member.
fn disjoint(alloc: Global, ty: &EbType, before: Term, sets: &[Term]) -> Result<Term, AllocError>
    ensures { IfOk result (λ t. t ≡ spec.both_on before (spec.disjoint_parts ty.now sets.now)) }
{
    match sets {
        [] => Ok(before),
        [first, others @ ..] => {
            let union = copied(alloc, first)?;
            let apart = Apart { union, all: before };
            all_apart(alloc, ty, apart, others)
        }
    }
}

fn all_apart(alloc: Global, ty: &EbType, before: Apart, others: &[Term]) -> Result<Term, AllocError>
    ensures { IfOk result (λ t. t ≡ step.all_apart ty.now before others.now) }
{
    let mut apart = before;
    for set in others {
        apart = apart_with(alloc, ty, apart, set)?;
    }
    Ok(apart.all)
}

fn apart_with(alloc: Global, ty: &EbType, before: Apart, set: &Term) -> Result<Apart, AllocError>
    ensures { IfOk result (λ a. a ≡ step.apart_with ty.now before set.now) }
{
    let Apart { union, all } = before;
    let is_apart = is_apart(alloc, ty, &union, set)?;
    let union = with(alloc, union, set)?;
    let all = both(alloc, all, is_apart)?;
    Ok(Apart { union, all })
}

/// That two sets share no member.
fn is_apart(alloc: Global, ty: &EbType, before: &Term, set: &Term) -> Result<Term, AllocError>
    ensures { IfOk result (λ t. t ≡ step.is_apart ty.now before.now set.now) }
{
    let before = copied(alloc, before)?;
    let set = copied(alloc, set)?;
    let shared = operation(alloc, Operator::Intersection, before, set)?;
    let none = none(alloc, ty)?;
    operation(alloc, Operator::Equal, shared, none)
}
