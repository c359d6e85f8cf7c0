//! Copies of terms, and terms put under more binders.
ghost use Rattle.std.specs.Prelude.{◌≡◌, ◌+◌, IfOk, map};
ghost use Rattle.eb_term.specs.Terms as term;
ghost use Rattle.narrow_terms.specs.Shifting as spec;
ghost use Rattle.narrow_terms.specs.steps.Shifting as step;

use eb_term::{Head, Infinite, SharedType, SharedValue, Side, Term, Terms};
use sqlite_items::Items;
use std::alloc::{AllocError, Global};

/// An equal term, which shares values and types with the one that it is made from. The only error is want of memory.
pub fn copied(alloc: Global, term: &Term) -> Result<Term, AllocError>
    ensures { IfOk result (λ copy. copy ≡ term.now) }
{
    shifted(alloc, term, 0, 0)
}

/// The term of a place with `from` enclosing binders, put under `by` more: its own binders have higher numbers there. The only
/// error is want of memory; a number of a binder above `u32::MAX` counts as such, since no term has as many binders.
#[cycle(shifting)]
pub fn shifted(alloc: Global, term: &Term, from: u32, by: u32) -> Result<Term, AllocError>
    ensures { IfOk result (λ t. t ≡ spec.shift from by term.now) }
{
    match &term.head {
        Head::Truth(truth) => Ok(Term::truth(*truth)),
        Head::Literal(value, ty) => literal(value, ty),
        Head::Reference(place, ty) => Term::reference(*place, ty),
        Head::Variable(binder, path, ty) => {
            let binder = number_under(*binder, from, by)?;
            variable(alloc, binder, path.as_slice(), ty)
        }
        Head::Infinite(set) => Ok(infinite(*set)),
        Head::Identity(ty) => identity(ty),
        Head::Projection(side, first, second) => projection(*side, first, second),
        Head::Unary(operator, part) => {
            let part = shifted(alloc, part.get(), from, by)?;
            Term::unary(alloc, *operator, part)
        }
        Head::Binary(operator, left, right) => {
            let left = shifted(alloc, left.get(), from, by)?;
            let right = shifted(alloc, right.get(), from, by)?;
            Term::binary(alloc, *operator, left, right)
        }
        Head::Many(operator, parts) => {
            let parts = all_shifted(alloc, parts.as_slice(), from, by)?;
            Ok(Term::many(*operator, parts))
        }
        Head::Over(binder, range, body) => {
            let range = shifted(alloc, range.get(), from, by)?;
            let body = shifted(alloc, body.get(), from, by)?;
            Term::over(alloc, *binder, range, body)
        }
        Head::All(binder, ty, body) => {
            let body = shifted(alloc, body.get(), from, by)?;
            Term::all(alloc, *binder, ty, body)
        }
    }
}

#[cycle(shifting)]
fn all_shifted(alloc: Global, terms: &[Term], from: u32, by: u32) -> Result<Terms, AllocError>
    ensures { IfOk result (λ ts. ts ≡ map (spec.shift from by) terms.now) }
{
    let mut all = Items::new(alloc);
    for term in terms {
        all.push(shifted(alloc, term, from, by)?)?;
    }
    Ok(all)
}

/// The number that a binder has then.
fn number_under(binder: u32, from: u32, by: u32) -> Result<u32, AllocError>
    ensures { IfOk result (λ k. k ≡ step.number_under binder from by) }
{
    if binder < from {
        Ok(binder)
    } else {
        sum(binder, by)
    }
}

/// The sum of two numbers of binders. The only error is want of memory, as which a sum above `u32::MAX` counts.
pub fn sum(a: u32, b: u32) -> Result<u32, AllocError>
    ensures { IfOk result (λ s. s ≡ a + b) }
{
    match a.checked_add(b) {
        Some(sum) => Ok(sum),
        None => Err(AllocError),
    }
}

fn literal(value: &SharedValue, ty: &SharedType) -> Result<Term, AllocError>
    ensures { IfOk result (λ t. t ≡ term.literal value.now ty.now) }
{
    let value = value.again()?;
    let ty = ty.again()?;
    Ok(Term {
        head: Head::Literal(value, ty),
    })
}

/// The value of the binder with this number, or a part of it.
pub(crate) fn variable(
    alloc: Global,
    binder: u32,
    path: &[Side],
    ty: &SharedType,
) -> Result<Term, AllocError>
    ensures { IfOk result (λ t. t ≡ term.variable binder path.now ty.now) }
{
    let path = Items::from_slice(alloc, path)?;
    let ty = ty.again()?;
    Ok(Term {
        head: Head::Variable(binder, path, ty),
    })
}

fn infinite(set: Infinite) -> Term
    ensures { result ≡ term.infinite set }
{
    Term {
        head: Head::Infinite(set),
    }
}

fn identity(ty: &SharedType) -> Result<Term, AllocError>
    ensures { IfOk result (λ t. t ≡ term.identity ty.now) }
{
    let ty = ty.again()?;
    Ok(Term {
        head: Head::Identity(ty),
    })
}

fn projection(side: Side, first: &SharedType, second: &SharedType) -> Result<Term, AllocError>
    ensures { IfOk result (λ t. t ≡ term.projection side first.now second.now) }
{
    let first = first.again()?;
    let second = second.again()?;
    Ok(Term {
        head: Head::Projection(side, first, second),
    })
}
