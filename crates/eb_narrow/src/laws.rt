//! What holds of narrow form, for callers to cite.

ghost use Rattle.std.specs.Prelude.{◌≡◌, List, [], Some, None, true, ℤ, pos, negsuc, ◌≤ℤ◌};
ghost use Rattle.type_table.specs.Rows.{predicate, expression};
ghost use Rattle.eb_value.specs.declared.scope.Scope.{Scope};
ghost use Rattle.eb_value.specs.declared.types.EbType.{EbType};
ghost use Rattle.eb_term.specs.declared.term.Term.{Term};
ghost use Rattle.eb_term.specs.Typed.{HasSort};
ghost use Rattle.eb_meaning.specs.Meaning.{Slot, value_of, truth_in};
ghost use Rattle.eb_meaning.specs.Fitting.{fits};
ghost use Rattle.eb_narrow.specs.Narrow.{narrow, narrowed};
ghost use Rattle.term_types.specs.Types.{type_of};

use eb_meaning::typed_terms_have_values_of_their_types;
use eb_value::{
    canonical_values_have_canonical_parts, integers_lie_within_bounds,
    members_determine_ascending_lists, operators_keep_types, operators_keep_values_canonical,
    order_is_total, values_are_complete,
};

/// A typed term and its narrow form have the same value and the same truth in every fitting environment.
pub fn narrow_form_keeps_the_meaning()
    ensures value { (scope : Scope) → negsuc 4611686018427387903 ≤ℤ scope.lo
        → scope.hi ≤ℤ pos 4611686018427387904
        → (t : Term) (ty : EbType) (refs : List Slot)
        → HasSort [] t (expression ty) → fits scope refs t ≡ true
        → value_of scope (record { refs = refs; bound = [] }) (narrow t)
        ≡ value_of scope (record { refs = refs; bound = [] }) t }
    ensures truth { (scope : Scope) → negsuc 4611686018427387903 ≤ℤ scope.lo
        → scope.hi ≤ℤ pos 4611686018427387904
        → (t : Term) (refs : List Slot)
        → HasSort [] t predicate → fits scope refs t ≡ true
        → truth_in scope (record { refs = refs; bound = [] }) (narrow t)
        ≡ truth_in scope (record { refs = refs; bound = [] }) t }
{
    order_is_total();
    members_determine_ascending_lists();
    canonical_values_have_canonical_parts();
    operators_keep_values_canonical();
    operators_keep_types();
    values_are_complete();
    integers_lie_within_bounds();
    typed_terms_have_values_of_their_types();
}

/// Narrow form goes by the type of the term.
pub fn narrow_form_goes_by_the_types()
    ensures { (t : Term) → (narrowed t).ty ≡ type_of t }
{}
