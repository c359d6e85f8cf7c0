//! What holds of the problem of the axioms, for callers to cite.

ghost use Rattle.std.specs.Prelude.{List, ℤ, pos, negsuc, ◌≤ℤ◌};
ghost use Rattle.eb_value.specs.declared.scope.Scope.{Scope};
ghost use Rattle.eb_value.specs.declared.types.EbType.{EbType};
ghost use Rattle.eb_value.specs.declared.value.Value.{Value};
ghost use Rattle.eb_model.specs.declared.model.EbModel.{EbModel};
ghost use Rattle.eb_typing.specs.Models.{Typed};
ghost use Rattle.eb_meaning.specs.Problems.{IsSolution};
ghost use Rattle.cbc_query.specs.Problems.{axioms_problem, IsWitness};

use eb_meaning::facts_over_values_have_their_own_truth;
use eb_narrow::narrow_form_keeps_the_meaning;
use eb_value::{values_are_ascending, values_are_complete};
use typed_lowering::lowered_terms_are_typed;

/// The solutions of the problem of a typed model's axioms are exactly its witnesses, where the scope's integers lie within
/// -2^62..2^62: a solution makes the narrow form of each axiom True, and a witness each axiom as it is written.
pub fn solutions_are_witnesses()
    ensures witnesses { (scope : Scope) → negsuc 4611686018427387903 ≤ℤ scope.lo
        → scope.hi ≤ℤ pos 4611686018427387904
        → (m : EbModel) (types : List EbType) → Typed m types
        → (values : List Value) → IsSolution scope (axioms_problem scope m types) values → IsWitness scope m types values }
    ensures solutions { (scope : Scope) → negsuc 4611686018427387903 ≤ℤ scope.lo
        → scope.hi ≤ℤ pos 4611686018427387904
        → (m : EbModel) (types : List EbType) → Typed m types
        → (values : List Value) → IsWitness scope m types values → IsSolution scope (axioms_problem scope m types) values }
{
    values_are_ascending();
    values_are_complete();
    facts_over_values_have_their_own_truth();
    narrow_form_keeps_the_meaning();
    lowered_terms_are_typed();
}
