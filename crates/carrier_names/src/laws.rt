//! What holds of names by their bytes, and of the names of carrier sets, for callers to cite.
ghost use Rattle.std.specs.Prelude.{◌≡◌, ◌==◌, ◌&&◌, ℕ, Bool, true, false, not, List};
ghost use Rattle.std.specs.List.{list_all};
ghost use Rattle.eb_lexer.specs.declared.token.Token.{Token};
ghost use Rattle.eb_lexer.specs.Tokens.{IsTokens};
ghost use Rattle.eb_syntax.specs.declared.units.EbUnit.{EbUnit};
ghost use Rattle.eb_units.specs.Grammar.{Reads};
ghost use Rattle.eb_model.specs.declared.model.EbModel.{EbModel};
ghost use Rattle.eb_model.specs.Models.{IsModelOf};
ghost use Rattle.cbc_query.specs.Parts.{carriers};
ghost use Rattle.eb_value.specs.Texts.{AreReadable};
ghost use Rattle.carrier_names.specs.Plain as spec;

/// Plain names can be read back where they are printed in values, and hold neither a space nor a line feed. What holds of each byte
/// that an identifier may have holds of each of theirs, and a byte that it may not have is none of them.
pub fn plain_names_are_words()
    ensures readable { (names : List (List ℕ)) → list_all spec.is_plain_name names ≡ true → AreReadable names }
    ensures words { (names : List (List ℕ)) → list_all spec.is_plain_name names ≡ true → list_all (list_all (λ b. not (b == 32) && not (b == 10))) names ≡ true }
    ensures bytes { (passes : ℕ → Bool) → ((b : ℕ) → spec.is_name_byte b ≡ true → passes b ≡ true)
        → (names : List (List ℕ)) → list_all spec.is_plain_name names ≡ true → list_all (list_all passes) names ≡ true }
    ensures apart { (b c : ℕ) → spec.is_name_byte b ≡ true → spec.is_name_byte c ≡ false → (b == c) ≡ false }
{}

/// The carrier sets of the model that a text is read as have plain names, so they can be read back where they are printed in values.
pub fn carriers_have_plain_names()
    ensures plain { (text : List ℕ) (tokens : List Token) (units : List EbUnit) (height : ℕ) (m : EbModel)
        → IsTokens tokens text → Reads tokens units height → IsModelOf units m → list_all spec.is_plain_name (carriers m) ≡ true }
    ensures readable { (text : List ℕ) (tokens : List Token) (units : List EbUnit) (height : ℕ) (m : EbModel)
        → IsTokens tokens text → Reads tokens units height → IsModelOf units m → AreReadable (carriers m) }
{
    plain_names_are_words();
}
