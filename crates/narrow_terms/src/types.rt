//! Types of the parts of values.
ghost use Rattle.std.specs.Prelude.{◌≡◌};
ghost use Rattle.std.specs.Option.{option_copied};
ghost use Rattle.eb_term.specs.Typed.{part_of_type};
ghost use Rattle.narrow_terms.specs.Parts.{element_of as members_type};

use eb_term::Side;
use eb_value::{EbType, Shape};

/// The type of the members of a set, None exactly where it is the type of no sets.
pub fn element_of(ty: &EbType) -> Option<&EbType>
    ensures { option_copied result ≡ members_type ty.now }
{
    match &ty.shape {
        Shape::Power(members) => Some(members.get()),
        _ => None,
    }
}

/// The type of a part of a pair, None exactly where it is the type of no pairs.
pub fn part_of(ty: &EbType, side: Side) -> Option<&EbType>
    ensures { option_copied result ≡ part_of_type side ty.now }
{
    match (&ty.shape, side) {
        (Shape::Product(first, _), Side::First) => Some(first.get()),
        (Shape::Product(_, second), Side::Second) => Some(second.get()),
        _ => None,
    }
}
