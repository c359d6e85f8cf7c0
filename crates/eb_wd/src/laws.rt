//! What holds of well-definedness, for callers to cite.

ghost use Rattle.std.specs.Prelude.{◌≡◌, List, true, ℤ, pos, negsuc, ◌≤ℤ◌};
ghost use Rattle.type_table.specs.Rows.{predicate};
ghost use Rattle.eb_value.specs.declared.value.Value.{Value};
ghost use Rattle.eb_value.specs.declared.scope.Scope.{Scope};
ghost use Rattle.eb_value.specs.declared.types.EbType.{EbType};
ghost use Rattle.eb_term.specs.declared.term.Term.{Term};
ghost use Rattle.eb_term.specs.Typed.{HasSort};
ghost use Rattle.eb_meaning.specs.Truths.{truth_of, is_defined};
ghost use Rattle.eb_meaning.specs.Meaning.{Slot, truth_in};
ghost use Rattle.eb_meaning.specs.Fitting.{fits, AreOfTypes};
ghost use Rattle.eb_wd.specs.WellDefined.{wd};

use eb_meaning::typed_terms_have_values_of_their_types;
use eb_value::values_are_complete;

/// What says that a typed predicate isn't Undefined is never Undefined itself, and True exactly where the predicate isn't.
pub fn wd_says_what_is_defined()
    ensures { (scope : Scope) → negsuc 4611686018427387903 ≤ℤ scope.lo
        → scope.hi ≤ℤ pos 4611686018427387904
        → (types : List EbType) (t : Term) (refs : List Slot) (bound : List Value)
        → HasSort types t predicate → fits scope refs t ≡ true → AreOfTypes scope bound types
        → truth_in scope (record { refs = refs; bound = bound }) (wd t)
        ≡ truth_of (is_defined (truth_in scope (record { refs = refs; bound = bound }) t)) }
{
    values_are_complete();
    typed_terms_have_values_of_their_types();
}
