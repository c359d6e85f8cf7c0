//! What holds of the rules at nodes, for callers to cite.
ghost use Rattle.std.specs.Prelude.{◌≡◌, ◌≤ℤ◌, ℕ, List, Some, pos, negsuc, slice_get, true};
ghost use Rattle.eb_value.specs.declared.scope.Scope.{Scope};
ghost use Rattle.eb_value.specs.declared.types.EbType.{EbType};
ghost use Rattle.eb_value.specs.declared.value.Value.{Value};
ghost use Rattle.type_table.specs.Rows.{Sort};
ghost use Rattle.eb_term.specs.declared.term.Term.{Term};
ghost use Rattle.eb_term.specs.Terms.{layer};
ghost use Rattle.eb_term.specs.Typed.{HasSort};
ghost use Rattle.eb_meaning.specs.Fitting.{fits, AreOfTypes};
ghost use Rattle.eb_meaning.specs.Meaning.{Slot};
ghost use Rattle.problem_nodes.specs.Places.{parts};
ghost use Rattle.occ_domains.specs.declared.domain.Domain.{Domain};
ghost use Rattle.occ_domains.specs.Domains.{has};
ghost use Rattle.occurrences.specs.declared.place.Place.TheVariants as place;
ghost use Rattle.occurrences.specs.Outcomes.{env_of, outcome_of};
ghost use Rattle.occurrences.specs.Stores.{Domains};
ghost use Rattle.node_rules.specs.Nodes as spec;
ghost use Rattle.node_rules.specs.Sound as sound;

use eb_meaning::typed_terms_have_values_of_their_types;
use occ_domains::bodies_have_their_values;
use rules_base::rules_are_sound;
use term_types::types_are_those_of_the_typing;

/// Up at a typed node whose literals and references fit has what comes of it, where the domains of its parts and of what it refers
/// to have what comes of these, and the values of the binders around it have their types.
pub fn up_is_sound()
    ensures { (scope : Scope) → negsuc 4611686018427387903 ≤ℤ scope.lo → scope.hi ≤ℤ pos 4611686018427387904
        → (choices : ℕ) (at : Domains) (refs : List Slot) (bound : List Value) (types : List EbType) (k : ℕ) (t : Term) (s : Sort)
        → HasSort types t s → fits scope refs t ≡ true → AreOfTypes scope bound types
        → sound.PartsHave scope at refs bound k t → sound.ReferenceHas choices at refs t
        → has (spec.up_layer scope choices at k bound t (layer t)) (outcome_of scope (env_of refs bound) t) ≡ true }
{
    typed_terms_have_values_of_their_types();
    types_are_those_of_the_typing();
    bodies_have_their_values();
    rules_are_sound();
}

/// Down to a part of such a node keeps what comes of the part, where its domain and that of the node have what comes of them.
pub fn down_is_sound()
    ensures { (scope : Scope) → negsuc 4611686018427387903 ≤ℤ scope.lo → scope.hi ≤ℤ pos 4611686018427387904
        → (at : Domains) (refs : List Slot) (bound : List Value) (types : List EbType) (k : ℕ) (t : Term) (s : Sort)
        → HasSort types t s → fits scope refs t ≡ true → AreOfTypes scope bound types
        → sound.PartsHave scope at refs bound k t
        → (number : ℕ) (part : Term) (d : Domain) → slice_get (parts t) number ≡ Some part
        → has d (outcome_of scope (env_of refs bound) part) ≡ true
        → has (at (place.Node k) bound) (outcome_of scope (env_of refs bound) t) ≡ true
        → has (spec.down_layer at k bound number (layer t) d) (outcome_of scope (env_of refs bound) part) ≡ true }
{
    typed_terms_have_values_of_their_types();
    types_are_those_of_the_typing();
    bodies_have_their_values();
    rules_are_sound();
}
