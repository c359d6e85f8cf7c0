//! Marks.
ghost use Rattle.std.specs.Prelude.{◌≡◌};
ghost use Rattle.numbered_names.specs.Names as spec;

use eb_syntax::Constant;

/// Whether each place of the constant has a type of its own, and so a number.
pub fn is_mark(constant: Constant) -> bool
    ensures { result ≡ spec.is_mark constant }
{
    match constant {
        Constant::Identity
        | Constant::FirstProjection
        | Constant::SecondProjection
        | Constant::EmptySet => true,
        Constant::Truth
        | Constant::Falsity
        | Constant::Integers
        | Constant::Naturals
        | Constant::PositiveNaturals
        | Constant::Booleans
        | Constant::TrueValue
        | Constant::FalseValue => false,
    }
}
