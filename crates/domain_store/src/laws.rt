//! What holds of boxes, for callers to cite.
ghost use Rattle.std.specs.Prelude.{◌≡◌, ◌∷◌, true, List};
ghost use Rattle.eb_value.specs.declared.scope.Scope.{Scope};
ghost use Rattle.eb_value.specs.declared.value.Value.{Value};
ghost use Rattle.eb_term.specs.declared.problem.Problem.{Problem};
ghost use Rattle.occ_domains.specs.declared.domain.Domain.{Domain};
ghost use Rattle.occ_domains.specs.Domains.{is_normal};
ghost use Rattle.occurrences.specs.declared.place.Place.{Place};
ghost use Rattle.occurrences.specs.Stores.{Domains, first_domains, with_domain};
ghost use Rattle.domain_store.specs.Boxes as spec;

use occ_domains::domains_have_their_outcomes;

/// What boxes give as the domains of occurrences is the store of the first box, where there is one.
pub fn boxes_are_seen_by_the_first()
    ensures { (s : spec.State) (at : Domains) (rest : List Domains) → spec.stores_of s ≡ at ∷ rest → spec.domains_of s ≡ at }
{}

/// The domains of the first store are in normal form, and stay so where one of them is replaced by a domain in normal form.
pub fn stores_stay_in_normal_form()
    ensures first { (scope : Scope) (p : Problem) → spec.AreNormal (first_domains scope p) }
    ensures narrowed { (at : Domains) (place : Place) (bound : List Value) (d : Domain) → spec.AreNormal at → is_normal d ≡ true
        → spec.AreNormal (with_domain at place bound d) }
{
    domains_have_their_outcomes();
}
