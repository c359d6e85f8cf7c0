//! What holds of the numbers of values, for callers to cite.
ghost use Rattle.std.specs.Prelude.{◌≡◌, ◌≤◌, ◌+◌, Bool, true, false, Some, None, length};
ghost use Rattle.eb_value.specs.declared.scope.Scope.{Scope};
ghost use Rattle.eb_value.specs.declared.types.EbType.{EbType};
ghost use Rattle.eb_value.specs.Scopes.{vals};
ghost use Rattle.occ_domains.specs.declared.body.Body.{Body};
ghost use Rattle.occ_domains.specs.declared.domain.Domain.{Domain};
ghost use Rattle.occ_domains.specs.declared.domain.Domain.TheVariants as domain;
ghost use Rattle.occ_domains.specs.declared.tests.Test.{Test};
ghost use Rattle.occ_domains.specs.Bodies as bodies;
ghost use Rattle.occ_domains.specs.Domains as domains;
ghost use Rattle.occ_domains.specs.Tests.{parts};
ghost use Rattle.occ_domains.specs.Wholes.{first, is_without_sets};
ghost use Rattle.domain_counts.specs.Counts as spec;

/// What two domains have in common has no more values than the first, and the two parts of a domain by a test have
/// together no more than the domain. A body in normal form has a value unless it is empty; unless it is single, it
/// has two at least, where no part of it is all sets. Meets and parts of what is without sets are without sets. The
/// first body of a type without sets has as many values as the type has in the scope.
pub fn domains_have_counts()
    ensures meet { (a b : Domain) → domains.is_normal a ≡ true → spec.count_in (domains.meet a b) ≤ spec.count_in a }
    ensures parts { (d : Domain) (t : Test) (two : Domain × Domain) → domains.is_normal d ≡ true → parts d t ≡ Some two
        → spec.count_in two.0 + spec.count_in two.1 ≤ spec.count_in d }
    ensures filled { (b : Body) → bodies.is_normal b ≡ true → bodies.is_empty b ≡ false → 1 ≤ spec.count b }
    ensures several { (b : Body) → bodies.is_normal b ≡ true → bodies.is_empty b ≡ false → spec.is_setless b ≡ true
        → bodies.single b ≡ None → 2 ≤ spec.count b }
    ensures setless_meet { (a b : Body) → spec.is_setless a ≡ true → spec.is_setless (bodies.meet a b) ≡ true }
    ensures setless_parts { (b : Body) (u : Bool) (t : Test) (two : Domain × Domain) → spec.is_setless b ≡ true
        → parts (domain.Values b u) t ≡ Some two → (spec.is_setless_in two.0 ≡ true) × (spec.is_setless_in two.1 ≡ true) }
    ensures first { (scope : Scope) (ty : EbType) → is_without_sets ty ≡ true
        → (spec.is_setless (first scope ty) ≡ true) × (spec.count (first scope ty) ≡ length (vals scope ty)) }
{}
