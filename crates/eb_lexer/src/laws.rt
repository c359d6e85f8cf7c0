//! What holds of the tokens of any text, for callers to cite.

ghost use Rattle.std.specs.Prelude.{◌≡◌, ℕ, List};
ghost use Rattle.eb_lexer.specs.declared.token.Token.{Token};
ghost use Rattle.eb_lexer.specs.Tokens as spec;

/// A text has at most one list of tokens, or at most one place at which no token begins, and never both.
pub fn a_text_is_read_in_one_way()
    ensures tokens { (ts us : List Token) (text : List ℕ) → spec.IsTokens ts text → spec.IsTokens us text → ts ≡ us }
    ensures places { (a b : ℕ) (text : List ℕ) → spec.IsBadAt a text → spec.IsBadAt b text → a ≡ b }
    ensures apart { (ts : List Token) (at : ℕ) (text : List ℕ) → spec.IsTokens ts text → spec.IsBadAt at text → ⊥ }
{}

/// The tokens of a text lie in it one behind another, and the bytes of each write it.
pub fn tokens_name_slices()
    ensures { (ts : List Token) (text : List ℕ) → spec.IsTokens ts text → spec.LieFrom 0 text ts }
{}
