//! What holds of the lines and their texts, for callers to cite.
ghost use Rattle.std.specs.Prelude.{◌≡◌, ◌≢◌, ◌<◌, ◌^◌, true, List, ℕ, Ok, Err, Result, All};
ghost use Rattle.eb_value.specs.Texts.{AreReadable, StaysInRow};
ghost use Rattle.tree_lines.specs.declared.line.Line.{Line as TheLine};
ghost use Rattle.tree_lines.specs.declared.line.LineFault.{LineFault as TheFault};
ghost use Rattle.tree_lines.specs.declared.line.LineFault.TheVariants.{Memory};
ghost use Rattle.tree_lines.specs.Lines as lines;
ghost use Rattle.tree_lines.specs.Words as words;

use eb_value::values_are_told_by_their_texts;
use occurrences::nodes_stand_inside_one_row_of_binders;

/// But for want of memory, a text has one reading. A line is read of its text, where what it names is there and fits; its text
/// is one line. But for headers, only a line's own text is read as that line.
pub fn lines_are_read_back()
    ensures one { (r : lines.Reader) → AreReadable r.names → All (λ size. size < 2 ^ 32) r.scope.sizes → (text : List ℕ) (a b : Result TheLine TheFault) → (a ≡ Err Memory → ⊥) → (b ≡ Err Memory → ⊥)
        → lines.IsReading r text a → lines.IsReading r text b → a ≡ b }
    ensures back { (r : lines.Reader) → All (λ name. All StaysInRow name) r.names → (line : TheLine) → lines.has_small_numbers line ≡ true → lines.NamesWhatIsThere r line
        → lines.HasFittingTest r line → lines.IsReading r (words.line_text r.names line) (Ok line) }
    ensures words { (names : List (List ℕ)) → All (λ name. All StaysInRow name) names → (line : TheLine) → lines.has_small_numbers line ≡ true
        → All (λ byte. byte ≢ 10) (words.line_text names line) }
    ensures own { (r : lines.Reader) (text : List ℕ) (line : TheLine) → lines.IsReading r text (Ok line) → (line ≡ TheLine.Header → ⊥)
        → text ≡ words.line_text r.names line }
{
    nodes_stand_inside_one_row_of_binders();
    values_are_told_by_their_texts();
}
