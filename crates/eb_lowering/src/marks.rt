//! Marks as terms: `{}`, `id`, `prj1` and `prj2`, by their types. The only error of each function is want of memory.
ghost use Rattle.std.specs.Prelude.{◌≡◌, IfOk};
ghost use Rattle.eb_term.specs.Terms as term;
ghost use Rattle.eb_term.specs.declared.operators.Side.TheVariants as side;
ghost use Rattle.eb_lowering.specs.Lowering as spec;

use crate::leaves::no_value;
use eb_syntax::Constant;
use eb_term::{Head, SharedType, Side, Term};
use eb_value::EbType;
use narrow_terms::{element_of, empty_set, part_of};
use std::alloc::{AllocError, Global};

/// The type of a part of a pair, BOOL where there is none.
fn part_type(alloc: Global, ty: &EbType, side: Side) -> Result<EbType, AllocError>
    ensures { IfOk result (λ t. t ≡ spec.part_type side ty.now) }
{
    match part_of(ty, side) {
        Some(part) => part.copied(alloc),
        None => Ok(EbType::boolean()),
    }
}

/// The type of the firsts or of the seconds of a relation's pairs, BOOL where there are none.
fn side_type(alloc: Global, ty: &EbType, side: Side) -> Result<EbType, AllocError>
    ensures { IfOk result (λ t. t ≡ spec.side_type side ty.now) }
{
    match element_of(ty) {
        Some(pair) => part_type(alloc, pair, side),
        None => Ok(EbType::boolean()),
    }
}

fn identity(alloc: Global, ty: &EbType) -> Result<Term, AllocError>
    ensures { IfOk result (λ t. t ≡ term.identity (spec.side_type side.First ty.now)) }
{
    let first = side_type(alloc, ty, Side::First)?;
    let first = SharedType::new(alloc, first)?;
    Ok(Term {
        head: Head::Identity(first),
    })
}

/// `prj1` or `prj2` as a relation of this type.
fn projection(alloc: Global, to: Side, ty: &EbType) -> Result<Term, AllocError>
    ensures { IfOk result (λ t. t ≡ term.projection to (spec.part_type side.First (spec.side_type side.First ty.now)) (spec.part_type side.Second (spec.side_type side.First ty.now))) }
{
    let pair = side_type(alloc, ty, Side::First)?;
    let first = part_type(alloc, &pair, Side::First)?;
    let second = part_type(alloc, &pair, Side::Second)?;
    projected(alloc, to, first, second)
}

fn projected(alloc: Global, to: Side, first: EbType, second: EbType) -> Result<Term, AllocError>
    ensures { IfOk result (λ t. t ≡ term.projection to first second) }
{
    let first = SharedType::new(alloc, first)?;
    let second = SharedType::new(alloc, second)?;
    Ok(Term {
        head: Head::Projection(to, first, second),
    })
}

/// A mark of this type.
pub(crate) fn mark_term(alloc: Global, constant: Constant, ty: &EbType) -> Result<Term, AllocError>
    ensures { IfOk result (λ t. t ≡ spec.mark_term constant ty.now) }
{
    match constant {
        Constant::EmptySet => {
            let ty = ty.copied(alloc)?;
            empty_set(alloc, ty)
        }
        Constant::Identity => identity(alloc, ty),
        Constant::FirstProjection => projection(alloc, Side::First, ty),
        Constant::SecondProjection => projection(alloc, Side::Second, ty),
        Constant::Truth
        | Constant::Falsity
        | Constant::Integers
        | Constant::Naturals
        | Constant::PositiveNaturals
        | Constant::Booleans
        | Constant::TrueValue
        | Constant::FalseValue => {
            let ty = ty.copied(alloc)?;
            no_value(alloc, ty)
        }
    }
}
