ghost use Rattle.std.specs.Prelude.{◌≡◌, ◌-◌, ℕ, List, length, take, drop};
ghost use Rattle.eb_lexer.specs.declared.token.Token.{Token};
ghost use Rattle.eb_syntax.specs.declared.ast.Ast.{Ast};
ghost use Rattle.eb_parser.specs.declared.formulas.FormulaKind.{FormulaKind};
ghost use Rattle.eb_parser.specs.Formulas as spec;
ghost use Rattle.eb_spelling.specs.Spelling as spelling;

/// A formula is written with the tokens that it was read from, and tokens of these kinds read as that formula but for its places.
pub fn a_formula_reads_back()
    ensures own { (k : FormulaKind) (tokens : List Token) (from end : ℕ) (a : Ast) (h : ℕ) → spec.Stands k tokens from end a h → spelling.HaveKinds (take (end - from) (drop from tokens)) (spelling.kinds_of a) }
    ensures back { (k : FormulaKind) (tokens : List Token) (from end : ℕ) (a : Ast) (h : ℕ) → spec.Stands k tokens from end a h → (us : List Token) → spelling.HaveKinds us (spelling.kinds_of a)
        → (b : Ast) × spec.Stands k us 0 (length us) b h × (spelling.unplaced b ≡ spelling.unplaced a) }
{}
