//! The operators of narrow terms.
ghost use Rattle.std.specs.Prelude.{◌≡◌, IfOk, pos};
ghost use Rattle.eb_term.specs.Terms as term;
ghost use Rattle.eb_term.specs.declared.operators.Unary.TheVariants as unary;
ghost use Rattle.narrow_terms.specs.Building as spec;

use crate::shift::{copied, variable};
use eb_syntax::{Call, Operator, Prefix};
use eb_term::{Binary, Infinite, Many, SharedType, Side, Term, Unary};
use eb_value::{EbType, Value};
use sqlite_items::Items;
use std::alloc::{AllocError, Global};

/// An operator on two terms, as `a + b`. The only error is want of memory.
pub fn operation(alloc: Global, operator: Operator, a: Term, b: Term) -> Result<Term, AllocError>
    ensures { IfOk result (λ t. t ≡ spec.operation operator a b) }
{
    Term::binary(alloc, Binary::Operator(operator), a, b)
}

/// `not p`. The only error is want of memory.
pub fn negation(alloc: Global, p: Term) -> Result<Term, AllocError>
    ensures { IfOk result (λ t. t ≡ spec.negation p) }
{
    Term::unary(alloc, Unary::Prefix(Prefix::Not), p)
}

/// The conjunction that is Undefined where a side is. The only error is want of memory.
pub fn both(alloc: Global, p: Term, q: Term) -> Result<Term, AllocError>
    ensures { IfOk result (λ t. t ≡ spec.both p q) }
{
    Term::binary(alloc, Binary::Both, p, q)
}

/// A call on a term, as `card(a)`. The only error is want of memory.
pub fn call(alloc: Global, call: Call, a: Term) -> Result<Term, AllocError>
    ensures { IfOk result (λ t. t ≡ term.unary (unary.Call call) a) }
{
    Term::unary(alloc, Unary::Call(call), a)
}

/// The first or the second of the pair e. The only error is want of memory.
pub fn part(alloc: Global, side: Side, e: &Term) -> Result<Term, AllocError>
    ensures { IfOk result (λ t. t ≡ spec.part side e.now) }
{
    let e = copied(alloc, e)?;
    Term::unary(alloc, Unary::Part(side), e)
}

/// That the relation relates no value to two. The only error is want of memory.
pub fn functional(alloc: Global, r: Term) -> Result<Term, AllocError>
    ensures { IfOk result (λ t. t ≡ spec.functional r) }
{
    Term::unary(alloc, Unary::Functional, r)
}

/// `r~`. The only error is want of memory.
pub fn inverse(alloc: Global, r: Term) -> Result<Term, AllocError>
    ensures { IfOk result (λ t. t ≡ spec.inverse r) }
{
    Term::unary(alloc, Unary::Inverse, r)
}

/// `e = e`, which is Undefined where e is. The only error is want of memory.
pub fn is_defined(alloc: Global, e: &Term) -> Result<Term, AllocError>
    ensures { IfOk result (λ t. t ≡ spec.is_defined e.now) }
{
    let left = copied(alloc, e)?;
    let right = copied(alloc, e)?;
    operation(alloc, Operator::Equal, left, right)
}

/// `{e}`. The only error is want of memory.
pub fn extension(alloc: Global, e: Term) -> Result<Term, AllocError>
    ensures { IfOk result (λ t. t ≡ spec.extension e) }
{
    let mut parts = Items::new(alloc);
    parts.push(e)?;
    Ok(Term::many(Many::Extension, parts))
}

/// The empty set of a type. The only error is want of memory.
pub fn empty_set(alloc: Global, ty: EbType) -> Result<Term, AllocError>
    ensures { IfOk result (λ t. t ≡ spec.empty_set ty) }
{
    Term::literal(alloc, Value::set(Items::new(alloc)), ty)
}

/// What stands for a form of this type where a text can have none: the intersection of no sets, which is Undefined. The type is
/// one of sets. The only error is want of memory.
pub fn no_value(alloc: Global, ty: EbType) -> Result<Term, AllocError>
    ensures { IfOk result (λ t. t ≡ spec.no_value ty) }
{
    let sets = EbType::power(alloc, ty)?;
    let none = empty_set(alloc, sets)?;
    Term::unary(alloc, Unary::Call(Call::GeneralizedIntersection), none)
}

/// The value of the binder with this number. The only error is want of memory.
pub fn whole(alloc: Global, binder: u32, ty: &SharedType) -> Result<Term, AllocError>
    ensures { IfOk result (λ t. t ≡ spec.whole binder ty.now) }
{
    variable(alloc, binder, &[], ty)
}

/// That the value of e is an integer of this set. The only error is want of memory.
pub fn infinite_has(alloc: Global, set: Infinite, e: &Term) -> Result<Term, AllocError>
    ensures { IfOk result (λ t. t ≡ spec.infinite_has set e.now) }
{
    match set {
        Infinite::Integers => is_defined(alloc, e),
        Infinite::Naturals => at_least(alloc, 0, e),
        Infinite::PositiveNaturals => at_least(alloc, 1, e),
    }
}

fn at_least(alloc: Global, least: u8, e: &Term) -> Result<Term, AllocError>
    ensures { IfOk result (λ t. t ≡ spec.at_most (term.integer (pos least)) e.now) }
{
    let least = Term::integer(alloc, i64::from(least))?;
    let e = copied(alloc, e)?;
    operation(alloc, Operator::AtMost, least, e)
}
