//! What holds of canonical values, for callers to cite.

ghost use Rattle.std.specs.Prelude.{◌≡◌, ◌++◌, List, Some, ℕ, ℤ, true, map, Contains};
ghost use Rattle.std.specs.List.{list_all};
ghost use Rattle.eb_value.specs.declared.value.Value.{Value};
ghost use Rattle.eb_value.specs.declared.scope.Scope.{Scope};
ghost use Rattle.eb_value.specs.declared.types.EbType.{EbType};
ghost use Rattle.eb_value.specs.Canonical.{IsCanonical, AreCanonical};
ghost use Rattle.eb_value.specs.Comprehensions as set;
ghost use Rattle.eb_value.specs.Comprehensions.{Maplet};
ghost use Rattle.eb_value.specs.Scopes.{vals, ints_from};
ghost use Rattle.eb_value.specs.Typing.{has_type};
ghost use Rattle.eb_value.specs.Values as value;

/// What a canonical value is made of is canonical, and so is each value of a type.
pub fn canonical_values_have_canonical_parts()
    ensures ascending { (v : Value) → IsCanonical v → value.is_ascending (set.members v) ≡ true }
    ensures members { (v : Value) → IsCanonical v → AreCanonical (set.members v) }
    ensures maplet { (v : Value) (m : Maplet) → IsCanonical v → set.maplet_in (value.layer v) ≡ Some m
        → IsCanonical m.first × IsCanonical m.second }
    ensures pairs { (a b : Value) → IsCanonical (value.pair a b) → IsCanonical a × IsCanonical b }
    ensures sets { (xs : List Value) → IsCanonical (value.set xs)
        → (value.is_ascending xs ≡ true) × AreCanonical xs }
    ensures each { (xs : List Value) → AreCanonical xs → (v : Value) → Contains xs v → IsCanonical v }
    ensures all { (xs : List Value) → ((v : Value) → Contains xs v → IsCanonical v) → AreCanonical xs }
    ensures families { (xs : List Value) → AreCanonical xs
        → list_all (λ v. value.is_ascending (set.members v)) xs ≡ true }
    ensures listed { (scope : Scope) (ty : EbType) → AreCanonical (vals scope ty) }
    ensures joined { (xs ys : List Value) → AreCanonical xs → AreCanonical ys → AreCanonical (xs ++ ys) }
    ensures left { (xs ys : List Value) → AreCanonical (xs ++ ys) → AreCanonical xs }
    ensures right { (xs ys : List Value) → AreCanonical (xs ++ ys) → AreCanonical ys }
    ensures typed { (scope : Scope) (v : Value) (ty : EbType) → has_type scope v ty ≡ true → IsCanonical v }
{}

/// Each operator makes canonical values of canonical values.
pub fn operators_keep_values_canonical()
    ensures set_of { (xs : List Value) → AreCanonical xs → IsCanonical (value.set (set.set_of xs)) }
    ensures union { (a b : List Value) → AreCanonical a → AreCanonical b
        → IsCanonical (value.set (set.union a b)) }
    ensures meet { (a b : List Value) → AreCanonical a → AreCanonical b
        → IsCanonical (value.set (set.meet a b)) }
    ensures minus { (a b : List Value) → AreCanonical a → AreCanonical b
        → IsCanonical (value.set (set.minus a b)) }
    ensures cross { (a b : List Value) → AreCanonical a → AreCanonical b
        → IsCanonical (value.set (set.cross a b)) }
    ensures domain { (r : List Value) → AreCanonical r → IsCanonical (value.set (set.domain r)) }
    ensures range { (r : List Value) → AreCanonical r → IsCanonical (value.set (set.range r)) }
    ensures inverse { (r : List Value) → AreCanonical r → IsCanonical (value.set (set.inverse r)) }
    ensures dom_keep { (s r : List Value) → AreCanonical s → AreCanonical r
        → IsCanonical (value.set (set.dom_keep s r)) }
    ensures dom_drop { (s r : List Value) → AreCanonical s → AreCanonical r
        → IsCanonical (value.set (set.dom_drop s r)) }
    ensures ran_keep { (r s : List Value) → AreCanonical r → AreCanonical s
        → IsCanonical (value.set (set.ran_keep r s)) }
    ensures ran_drop { (r s : List Value) → AreCanonical r → AreCanonical s
        → IsCanonical (value.set (set.ran_drop r s)) }
    ensures image { (r s : List Value) → AreCanonical r → AreCanonical s
        → IsCanonical (value.set (set.image r s)) }
    ensures overlay { (f g : List Value) → AreCanonical f → AreCanonical g
        → IsCanonical (value.set (set.overlay f g)) }
    ensures compose { (r s : List Value) → AreCanonical r → AreCanonical s
        → IsCanonical (value.set (set.compose r s)) }
    ensures direct { (r s : List Value) → AreCanonical r → AreCanonical s
        → IsCanonical (value.set (set.direct r s)) }
    ensures parallel { (r s : List Value) → AreCanonical r → AreCanonical s
        → IsCanonical (value.set (set.parallel r s)) }
    ensures apply { (f : List Value) (x y : Value) → AreCanonical f → set.apply f x ≡ Some y → IsCanonical y }
    ensures union_of { (sets : List (List Value))
        → ((s : List Value) → Contains sets s → AreCanonical s) → IsCanonical (value.set (set.union_of sets)) }
    ensures meet_of { (sets : List (List Value)) (xs : List Value)
        → ((s : List Value) → Contains sets s → AreCanonical s)
        → set.meet_of sets ≡ Some xs → IsCanonical (value.set xs) }
    ensures union_all { (vs : List Value) → AreCanonical vs
        → IsCanonical (value.set (set.union_of (map set.members vs))) }
    ensures meet_all { (vs xs : List Value) → AreCanonical vs
        → set.meet_of (map set.members vs) ≡ Some xs → IsCanonical (value.set xs) }
    ensures integers { (lo : ℤ) (n : ℕ) → IsCanonical (value.set (ints_from lo n)) }
{}
