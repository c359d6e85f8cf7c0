//! What holds of narrow terms, for callers to cite.

ghost use Rattle.std.specs.Prelude.{◌≡◌, ℕ, List, [], true, Contains, length};
ghost use Rattle.type_table.specs.Rows.{Sort};
ghost use Rattle.eb_value.specs.declared.scope.Scope.{Scope};
ghost use Rattle.eb_value.specs.declared.types.EbType.{EbType};
ghost use Rattle.eb_term.specs.declared.term.Term.{Term};
ghost use Rattle.eb_term.specs.Typed.{HasSort};
ghost use Rattle.eb_term.specs.Leaves.{references as places};
ghost use Rattle.eb_meaning.specs.Meaning.{Slot};
ghost use Rattle.eb_meaning.specs.Fitting.{fits as all_fit};
ghost use Rattle.eb_narrow.specs.Narrow.{narrow, narrowed};

use eb_narrow::narrow_form_goes_by_the_types;
use term_types::types_are_those_of_the_typing;

/// The narrow form of a typed term is typed alike, and its literals and references fit where those of the term do. So is what
/// becomes of a part that stands under binders, by their number. No term's narrow form refers to a place that the term doesn't.
pub fn narrow_terms_are_typed()
    ensures typed { (t : Term) (s : Sort) → HasSort [] t s → HasSort [] (narrow t) s }
    ensures fits { (scope : Scope) (refs : List Slot) (t : Term) (s : Sort) → HasSort [] t s
        → all_fit scope refs t ≡ true → all_fit scope refs (narrow t) ≡ true }
    ensures references { (t : Term) (number : ℕ) → Contains (places (narrow t)) number → Contains (places t) number }
    ensures typed_under { (types : List EbType) (t : Term) (s : Sort) → HasSort types t s
        → HasSort types ((narrowed t).term (length types)) s }
    ensures fits_under { (scope : Scope) (refs : List Slot) (types : List EbType) (t : Term) (s : Sort) → HasSort types t s
        → all_fit scope refs t ≡ true → all_fit scope refs ((narrowed t).term (length types)) ≡ true }
{
    narrow_form_goes_by_the_types();
    types_are_those_of_the_typing();
}
