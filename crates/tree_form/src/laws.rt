//! What holds of the lines and their texts, for callers to cite.
ghost use Rattle.std.specs.Prelude.{◌≡◌, true, List, ℕ, Ok, Result};
ghost use Rattle.eb_term.specs.declared.problem.Problem.{Problem as TheProblem};
ghost use Rattle.tree_form.specs.declared.line.Line.{Line};
ghost use Rattle.tree_form.specs.declared.line.LineFault.{LineFault};
ghost use Rattle.tree_form.specs.Lines as form;

/// A text has one reading. A line's text is read as that line, where what it names is there and fits;
/// but for headers, only a line's own text is read as that line.
pub fn lines_are_read_back()
    ensures back { (problem : TheProblem) (line : Line) → form.has_small_numbers line ≡ true → form.is_there problem line ≡ true
        → form.fits_type problem line ≡ true → form.IsReading problem (form.line_text line) (Ok line) }
    ensures some { (problem : TheProblem) (text : List ℕ) → (result : Result Line LineFault) × form.IsReading problem text result }
    ensures one { (problem : TheProblem) (text : List ℕ) (first second : Result Line LineFault) → form.IsReading problem text first
        → form.IsReading problem text second → first ≡ second }
    ensures line { (text : List ℕ) (first second : Line) → form.IsLine text first → form.IsLine text second → first ≡ second }
    ensures own { (problem : TheProblem) (text : List ℕ) (line : Line) → form.IsReading problem text (Ok line)
        → (line ≡ Line.Header → ⊥) → text ≡ form.line_text line }
{}
