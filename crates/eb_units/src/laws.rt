//! Laws of the grammar.
ghost use Rattle.std.specs.Prelude.{◌≡◌, ℕ, List};
ghost use Rattle.eb_lexer.specs.declared.token.Token.{Token};
ghost use Rattle.eb_syntax.specs.declared.units.EbUnit.{EbUnit};
ghost use Rattle.eb_units.specs.Grammar as grammar;

use eb_parser::formulas_are_found_at_the_front;

/// The same tokens are not two texts.
pub fn a_text_has_one_reading()
    ensures { (ts : List Token) (us vs : List EbUnit) (h k : ℕ) → grammar.Reads ts us h → grammar.Reads ts vs k → (us ≡ vs) × (h ≡ k) }
{
    formulas_are_found_at_the_front();
}
