//! What holds of the signs, for callers to cite.

ghost use Rattle.std.specs.Prelude.{◌≡◌, Some};
ghost use Rattle.eb_signs.specs.declared.sign.Sign.{Sign};
ghost use Rattle.eb_signs.specs.Signs as signs;

/// The ASCII spelling of a sign is the spelling of no other sign.
pub fn a_sign_is_spelled_by_its_text()
    ensures { (sign : Sign) → signs.sign_of (signs.sign_text sign) ≡ Some sign }
{}
