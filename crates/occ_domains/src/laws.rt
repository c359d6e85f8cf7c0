//! What holds of bodies, for callers to cite.
ghost use Rattle.std.specs.Prelude.{◌≡◌, ◌&&◌, true, false, not, Option, Some, Contains, pos, negsuc, ◌≤ℤ◌};
ghost use Rattle.eb_value.specs.declared.scope.Scope.{Scope};
ghost use Rattle.eb_value.specs.declared.types.EbType.{EbType};
ghost use Rattle.eb_value.specs.Scopes.{vals};
ghost use Rattle.eb_value.specs.Typing.{has_type};
ghost use Rattle.occ_domains.specs.Domains as domains;
ghost use Rattle.occ_domains.specs.Wholes.{whole, first};
ghost use Rattle.occ_domains.specs.declared.domain.Domain.{Domain};
ghost use Rattle.occ_domains.specs.declared.domain.Domain.TheVariants as domain;
ghost use Rattle.occ_domains.specs.declared.tests.Test.{Test};
ghost use Rattle.occ_domains.specs.Tests as tests;
ghost use Rattle.eb_value.specs.declared.value.Value.{Value};
ghost use Rattle.eb_value.specs.Comprehensions.{same};
ghost use Rattle.int_dom.specs.declared.interval.Interval.{Interval};
ghost use Rattle.eb_value.specs.Values.{layer};
ghost use Rattle.occ_domains.specs.declared.body.Body.{Body, out-Body};
ghost use Rattle.occ_domains.specs.declared.body.Body.TheOpen as body;
ghost use Rattle.occ_domains.specs.Bodies as spec;

use eb_value::{order_is_total, values_are_ascending, values_are_complete};

/// A body has a value by one level of each. What two bodies have in common has the values of both. An empty body has none, and a
/// single one no other than its value; all values of a type are among those of its whole, and those
/// in the scope among those of its first. Bodies in normal form stay so where two
/// are met or paired, and where a value is removed.
pub fn bodies_have_their_values()
    ensures layers { (b : Body) (v : Value) → spec.has b v ≡ spec.has_at (out-Body b) v (layer v) }
    ensures pairs { (a b : Body) (v : Value) → spec.has (spec.pairs a b) v ≡ spec.has_at (body.Pairs a b) v (layer v) }
    ensures integers { (d : Interval) (v : Value) → spec.has (spec.integers d) v ≡ spec.has_at (body.Integers d) v (layer v) }
    ensures meet { (a b : Body) (v : Value) → spec.has (spec.meet a b) v ≡ (spec.has a v && spec.has b v) }
    ensures none { (b : Body) (v : Value) → spec.is_empty b ≡ true → spec.has b v ≡ false }
    ensures single { (b : Body) (v w : Value) → spec.single b ≡ Some v → spec.has b w ≡ true → w ≡ v }
    ensures without { (b : Body) (v w : Value) → spec.has b v ≡ true → same v w ≡ false → spec.has (spec.without b w) v ≡ true }
    ensures only { (s : Option Value) → domains.has (domains.only s) (domains.slot s) ≡ true }
    ensures whole { (scope : Scope) (ty : EbType) (v : Value) → has_type scope v ty ≡ true → spec.has (whole scope ty) v ≡ true }
    ensures first { (scope : Scope) → negsuc 4611686018427387903 ≤ℤ scope.lo → scope.hi ≤ℤ pos 4611686018427387904
        → (ty : EbType) (v : Value) → Contains (vals scope ty) v → spec.has (first scope ty) v ≡ true }
    ensures normal_meet { (a b : Body) → spec.is_normal a ≡ true → spec.is_normal (spec.meet a b) ≡ true }
    ensures normal_integers { (d : Interval) → spec.is_normal (spec.integers d) ≡ true }
    ensures normal_pairs { (a b : Body) → spec.is_normal a ≡ true → spec.is_normal b ≡ true → spec.is_normal (spec.pairs a b) ≡ true }
    ensures normal_without { (b : Body) (v : Value) → spec.is_normal b ≡ true → spec.is_normal (spec.without b v) ≡ true }
    ensures normal_parts { (b x y : Body) → spec.is_normal b ≡ true → out-Body b ≡ body.Pairs x y
        → (spec.is_normal x ≡ true) × (spec.is_normal y ≡ true) }
{
    order_is_total();
    values_are_complete();
}

/// What two domains have in common has the outcomes of both. An empty domain has none, and a single one no other than its value. The
/// two parts by a test have the outcomes that pass and the others, neither is empty, and the rest stay in normal form.
pub fn domains_have_their_outcomes()
    ensures meet { (a b : Domain) (o : domains.Outcome) → domains.has (domains.meet a b) o ≡ (domains.has a o && domains.has b o) }
    ensures none { (d : Domain) (o : domains.Outcome) → domains.is_empty d ≡ true → domains.has d o ≡ false }
    ensures single { (d : Domain) (v : Value) (o : domains.Outcome) → domains.single d ≡ Some v → domains.has d o ≡ true → o ≡ domains.slot (Some v) }
    ensures first { (d : Domain) (t : Test) (two : Domain × Domain) → tests.parts d t ≡ Some two → (o : domains.Outcome)
        → domains.has two.0 o ≡ (domains.has d o && tests.passes t o) }
    ensures second { (d : Domain) (t : Test) (two : Domain × Domain) → tests.parts d t ≡ Some two → (o : domains.Outcome)
        → domains.has two.1 o ≡ (domains.has d o && not (tests.passes t o)) }
    ensures filled { (d : Domain) (t : Test) (two : Domain × Domain) → tests.parts d t ≡ Some two
        → (domains.is_empty two.0 ≡ false) × (domains.is_empty two.1 ≡ false) }
    ensures normal_meet { (a b : Domain) → domains.is_normal a ≡ true → domains.is_normal (domains.meet a b) ≡ true }
    ensures normal_parts { (d : Domain) (t : Test) (two : Domain × Domain) → domains.is_normal d ≡ true → tests.parts d t ≡ Some two
        → (domains.is_normal two.0 ≡ true) × (domains.is_normal two.1 ≡ true) }
    ensures normal_first { (scope : Scope) (ty : EbType) → domains.is_normal (domain.Values (first scope ty) false) ≡ true }
    ensures normal_whole { (scope : Scope) (ty : EbType) → domains.is_normal (domain.Values (whole scope ty) true) ≡ true }
{
    order_is_total();
    values_are_ascending();
}
