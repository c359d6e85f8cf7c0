ghost use Rattle.std.specs.Prelude.{◌≡◌, ℕ, List};
ghost use Rattle.eb_lexer.specs.declared.token.Token.{Token};
ghost use Rattle.eb_syntax.specs.declared.ast.Ast.{Ast};
ghost use Rattle.eb_parser.specs.declared.formulas.FormulaKind.{FormulaKind};
ghost use Rattle.eb_parser.specs.Formulas as spec;
ghost use Rattle.eb_parser.specs.steps.Finding as steps;

/// The same tokens are not two formulas of a kind.
pub fn a_formula_has_one_reading()
    ensures { (k : FormulaKind) (tokens : List Token) (from end : ℕ) (a c : Ast) (h g : ℕ) → spec.Stands k tokens from end a h → spec.Stands k tokens from end c g → (a ≡ c) × (h ≡ g) }
{}

/// The reader finds the formulas at the front of tokens: each one lower than a limit that nothing goes on with, and no other.
pub fn formulas_are_found_at_the_front()
    ensures { steps.FrontLaws }
{}
