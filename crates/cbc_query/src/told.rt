//! The numbers that the ranges of a narrow term tell, and those of the identifiers whose types have integers.
ghost use Rattle.std.specs.Prelude.{◌≡◌, ◌++◌, OnOk, slice_get};
ghost use Rattle.std.specs.List.{flat_map};
ghost use Rattle.eb_forms.specs.Forms.{has_integers as with_integers, type_has_integers as type_with_integers};
ghost use Rattle.cbc_query.specs.Limits.{range_types};
ghost use Rattle.cbc_query.specs.Notes as spec;
ghost use Rattle.cbc_query.specs.steps.Told as step;

use eb_term::{Head, SharedType, Term};
use eb_value::{EbType, Shape};
use sqlite_items::Items;
use std::alloc::AllocError;

/// Whether the type has integers.
fn has_integers(ty: &EbType) -> bool
    ensures { result ≡ with_integers ty.now }
{
    match &ty.shape {
        Shape::Integer => true,
        Shape::Bool => false,
        Shape::Carrier(_) => false,
        Shape::Product(first, second) => has_integers(first.get()) || has_integers(second.get()),
        Shape::Power(member) => has_integers(member.get()),
    }
}

/// Whether the type of this number has integers.
pub(crate) fn type_has_integers(types: &Items<SharedType>, number: u32) -> bool
    ensures { result ≡ type_with_integers (slice_get types.now number) }
{
    match types.get(number as usize) {
        Some(ty) => has_integers(ty.get()),
        None => false,
    }
}

fn is_integer(ty: &EbType) -> bool
    ensures { result ≡ spec.is_integer (spec.shape ty.now) }
{
    match &ty.shape {
        Shape::Integer => true,
        Shape::Bool => false,
        Shape::Carrier(_) => false,
        Shape::Product(_, _) => false,
        Shape::Power(_) => false,
    }
}

fn carrier_number(ty: &EbType) -> Option<u32>
    ensures { result ≡ spec.carrier_number (spec.shape ty.now) }
{
    match &ty.shape {
        Shape::Carrier(number) => Some(*number),
        Shape::Integer => None,
        Shape::Bool => None,
        Shape::Product(_, _) => None,
        Shape::Power(_) => None,
    }
}

/// The number that a type tells.
fn told_by(ty: &EbType) -> Option<u32>
    ensures { result ≡ spec.told_by ty.now }
{
    match &ty.shape {
        Shape::Product(first, second) => {
            if is_integer(first.get()) {
                carrier_number(second.get())
            } else {
                None
            }
        }
        Shape::Integer => None,
        Shape::Bool => None,
        Shape::Carrier(_) => None,
        Shape::Power(_) => None,
    }
}

fn push_told(ty: &EbType, numbers: &mut Items<u32>) -> Result<(), AllocError>
    ensures { OnOk result (numbers.new ≡ numbers.old ++ step.told_number ty.now) }
{
    match told_by(ty) {
        Some(number) => {
            numbers.push(number)?;
            Ok(())
        }
        None => Ok(()),
    }
}

/// Writes the numbers that the ranges of a term tell to the end, from left to right. The only error is want of memory.
#[cycle(telling)]
pub(crate) fn push_numbers(term: &Term, numbers: &mut Items<u32>) -> Result<(), AllocError>
    ensures { OnOk result (numbers.new ≡ numbers.old ++ flat_map step.told_number (range_types term.now)) }
{
    match &term.head {
        Head::Truth(_) => Ok(()),
        Head::Literal(_, _) => Ok(()),
        Head::Reference(_, _) => Ok(()),
        Head::Variable(_, _, _) => Ok(()),
        Head::Infinite(_) => Ok(()),
        Head::Identity(ty) => push_told(ty.get(), numbers),
        Head::Projection(_, first, second) => {
            push_told(first.get(), numbers)?;
            push_told(second.get(), numbers)
        }
        Head::Unary(_, part) => push_numbers(part.get(), numbers),
        Head::Binary(_, left, right) => {
            push_numbers(left.get(), numbers)?;
            push_numbers(right.get(), numbers)
        }
        Head::Many(_, parts) => push_row(parts.as_slice(), numbers),
        Head::Over(_, range, body) => {
            push_numbers(range.get(), numbers)?;
            push_numbers(body.get(), numbers)
        }
        Head::All(_, ty, body) => {
            push_told(ty.get(), numbers)?;
            push_numbers(body.get(), numbers)
        }
    }
}

#[cycle(telling)]
fn push_row(terms: &[Term], numbers: &mut Items<u32>) -> Result<(), AllocError>
    ensures { OnOk result (numbers.new ≡ numbers.old ++ flat_map step.told_number (flat_map range_types terms.now)) }
{
    for term in terms {
        push_numbers(term, numbers)?;
    }
    Ok(())
}
