//! What holds of stores under the rules, for callers to cite.
ghost use Rattle.std.specs.Prelude.{◌≡◌, ◌⊎◌, ◌≤ℤ◌, List, Some, pos, negsuc};
ghost use Rattle.eb_value.specs.declared.scope.Scope.{Scope};
ghost use Rattle.eb_value.specs.declared.value.Value.{Value};
ghost use Rattle.eb_term.specs.declared.problem.Problem.{Problem};
ghost use Rattle.eb_meaning.specs.Problems.{IsValuation, IsSolution};
ghost use Rattle.occ_domains.specs.declared.domain.Domain.{Domain};
ghost use Rattle.occ_domains.specs.declared.tests.Test.{Test};
ghost use Rattle.occ_domains.specs.Domains.{Outcome};
ghost use Rattle.occ_domains.specs.Tests.{parts};
ghost use Rattle.occurrences.specs.declared.place.Place.{Place};
ghost use Rattle.occurrences.specs.declared.place.Rule.{Rule};
ghost use Rattle.occurrences.specs.Occurrences.{Occurs};
ghost use Rattle.occurrences.specs.Outcomes.{ComesAt, HaveWhatComes};
ghost use Rattle.occurrences.specs.Stores.{Domains, first_domains, with_domain};
ghost use Rattle.occurrences.specs.Targets.{target, target_bound};
ghost use Rattle.occurrences.specs.Typed.{IsTyped};
ghost use Rattle.node_rules.specs.Narrowing.{narrowed};

use eb_meaning::{terms_look_at_their_references_alone, typed_terms_have_values_of_their_types};
use eb_value::{order_is_total, values_are_complete};
use node_rules::{down_is_sound, up_is_sound};
use occ_domains::{bodies_have_their_values, domains_have_their_outcomes};
use problem_nodes::nodes_have_their_places;
use term_types::types_are_those_of_the_typing;

/// Where what comes of each occurrence is in its domain, it still is after a rule has narrowed one; and so it is at first, for each
/// solution. What a rule narrows is an occurrence. Something comes of each occurrence, and one thing alone; so of the two parts of a domain by a test, one has it. The
/// problem is typed, and its scope's integers lie within -2^62..2^62.
pub fn rules_keep_what_comes()
    ensures first { (scope : Scope) → negsuc 4611686018427387903 ≤ℤ scope.lo → scope.hi ≤ℤ pos 4611686018427387904
        → (p : Problem) → IsTyped scope p → (values : List Value) → IsSolution scope p values → HaveWhatComes scope p values (first_domains scope p) }
    ensures rules { (scope : Scope) → negsuc 4611686018427387903 ≤ℤ scope.lo → scope.hi ≤ℤ pos 4611686018427387904
        → (p : Problem) → IsTyped scope p → (values : List Value) → IsValuation scope p.choices values
        → (at : Domains) → HaveWhatComes scope p values at
        → (rule : Rule) (from : Place) (bound : List Value) (to : Place) → Occurs scope p from bound → target p rule from ≡ Some to
        → HaveWhatComes scope p values (narrowed scope p at rule from bound to) }
    ensures targets { (scope : Scope) → negsuc 4611686018427387903 ≤ℤ scope.lo → scope.hi ≤ℤ pos 4611686018427387904
        → (p : Problem) → IsTyped scope p → (rule : Rule) (from : Place) (bound : List Value) (to : Place) → Occurs scope p from bound
        → target p rule from ≡ Some to → Occurs scope p to (target_bound rule bound) }
    ensures there { (scope : Scope) → negsuc 4611686018427387903 ≤ℤ scope.lo → scope.hi ≤ℤ pos 4611686018427387904
        → (p : Problem) → IsTyped scope p → (values : List Value) → IsValuation scope p.choices values
        → (place : Place) (bound : List Value) → Occurs scope p place bound → (o : Outcome) × ComesAt scope p values place bound o }
    ensures once { (scope : Scope) (p : Problem) (values : List Value) (place : Place) (bound : List Value) (o z : Outcome)
        → ComesAt scope p values place bound o → ComesAt scope p values place bound z → o ≡ z }
    ensures split { (scope : Scope) → negsuc 4611686018427387903 ≤ℤ scope.lo → scope.hi ≤ℤ pos 4611686018427387904
        → (p : Problem) → IsTyped scope p → (values : List Value) → IsValuation scope p.choices values
        → (at : Domains) → HaveWhatComes scope p values at
        → (place : Place) (bound : List Value) → Occurs scope p place bound
        → (t : Test) (two : Domain × Domain) → parts (at place bound) t ≡ Some two
        → HaveWhatComes scope p values (with_domain at place bound two.0) ⊎ HaveWhatComes scope p values (with_domain at place bound two.1) }
{
    order_is_total();
    values_are_complete();
    types_are_those_of_the_typing();
    typed_terms_have_values_of_their_types();
    terms_look_at_their_references_alone();
    nodes_have_their_places();
    domains_have_their_outcomes();
    bodies_have_their_values();
    up_is_sound();
    down_is_sound();
}
