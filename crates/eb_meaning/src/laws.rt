//! What holds of the meaning of terms, for callers to cite.

ghost use Rattle.std.specs.Prelude.{◌≡◌, ℕ, List, map, Some, true, ℤ, pos, negsuc, ◌≤ℤ◌, Contains};
ghost use Rattle.std.specs.List.{list_all};
ghost use Rattle.type_table.specs.Rows.{expression};
ghost use Rattle.eb_value.specs.declared.value.Value.{Value};
ghost use Rattle.eb_value.specs.declared.scope.Scope.{Scope};
ghost use Rattle.eb_value.specs.declared.types.EbType.{EbType};
ghost use Rattle.eb_term.specs.declared.term.Term.{Term};
ghost use Rattle.eb_term.specs.Leaves.{references};
ghost use Rattle.eb_term.specs.Typed.{HasSort};
ghost use Rattle.eb_meaning.specs.Meaning.{Slot, is_value, slot_at, value_of, truth_in, has_member};
ghost use Rattle.eb_meaning.specs.Fitting.{slot_has_type, fits, AreOfTypes};
ghost use Rattle.eb_meaning.specs.Problems.{outermost, fact_at};

use eb_value::{
    canonical_values_have_canonical_parts, operators_keep_types, operators_keep_values_canonical,
    values_are_complete,
};

/// A typed term whose literals and references fit has a value of its type, or is Undefined, where the scope's integers lie
/// within -2^62..2^62 and the values of the enclosing binders have their types.
pub fn typed_terms_have_values_of_their_types()
    ensures { (scope : Scope) → negsuc 4611686018427387903 ≤ℤ scope.lo
        → scope.hi ≤ℤ pos 4611686018427387904
        → (types : List EbType) (t : Term) (ty : EbType) (refs : List Slot) (bound : List Value)
        → HasSort types t (expression ty) → fits scope refs t ≡ true
        → AreOfTypes scope bound types
        → slot_has_type scope (value_of scope (record { refs = refs; bound = bound }) t) ty
        ≡ true }
{
    operators_keep_types();
    operators_keep_values_canonical();
    canonical_values_have_canonical_parts();
    values_are_complete();
}

/// The meaning of a term in an environment is the same for any references that agree at the places to which the term refers.
pub fn terms_look_at_their_references_alone()
    ensures value { (scope : Scope) (t : Term) (refs others : List Slot) (bound : List Value)
        → ((place : ℕ) → Contains (references t) place → slot_at refs place ≡ slot_at others place)
        → value_of scope (record { refs = refs; bound = bound }) t ≡ value_of scope (record { refs = others; bound = bound }) t }
    ensures truth { (scope : Scope) (t : Term) (refs others : List Slot) (bound : List Value)
        → ((place : ℕ) → Contains (references t) place → slot_at refs place ≡ slot_at others place)
        → truth_in scope (record { refs = refs; bound = bound }) t ≡ truth_in scope (record { refs = others; bound = bound }) t }
    ensures members { (scope : Scope) (t : Term) (refs others : List Slot) (bound : List Value) (v : Value)
        → ((place : ℕ) → Contains (references t) place → slot_at refs place ≡ slot_at others place)
        → has_member scope (record { refs = refs; bound = bound }) t v ≡ has_member scope (record { refs = others; bound = bound }) t v }
{}

/// Where each place has a value, a fact has the truth that its term has there, whatever the term is: no place makes it Undefined,
/// and a reference past the end is Undefined in both. So it is over the values of a problem's choices.
pub fn facts_over_values_have_their_own_truth()
    ensures slots { (scope : Scope) (slots : List Slot) (fact : Term) → list_all is_value slots ≡ true
        → fact_at scope slots fact ≡ truth_in scope (outermost slots) fact }
    ensures values { (scope : Scope) (values : List Value) (fact : Term)
        → fact_at scope (map (λ v. Some v) values) fact ≡ truth_in scope (outermost (map (λ v. Some v) values)) fact }
{}
