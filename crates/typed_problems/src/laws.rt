//! What holds of the problem of the axioms, for callers to cite.

ghost use Rattle.std.specs.Prelude.{List};
ghost use Rattle.eb_value.specs.declared.scope.Scope.{Scope};
ghost use Rattle.eb_value.specs.declared.types.EbType.{EbType};
ghost use Rattle.eb_model.specs.declared.model.EbModel.{EbModel};
ghost use Rattle.eb_typing.specs.Models.{Typed};
ghost use Rattle.occurrences.specs.Typed.{IsTyped};
ghost use Rattle.cbc_query.specs.Problems.{axioms_problem};

use eb_value::values_are_ascending;
use narrow_typing::narrow_terms_are_typed;
use typed_lowering::formulas_of_models_have_typed_terms;

/// The problem of the axioms of a typed model is typed in every scope: each fact is a predicate under no binder, refers to
/// choices alone, and has literals and references of the types that they say.
pub fn problems_of_axioms_are_typed()
    ensures { (scope : Scope) (m : EbModel) (types : List EbType) → Typed m types → IsTyped scope (axioms_problem scope m types) }
{
    values_are_ascending();
    formulas_of_models_have_typed_terms();
    narrow_terms_are_typed();
}
