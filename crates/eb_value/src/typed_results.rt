//! Which types the operators give, for callers to cite.

ghost use Rattle.std.specs.Prelude.{◌≡◌, List, Some, ℤ, pos, negsuc, ◌+ℤ◌, ◌≤ℤ◌, true, Contains};
ghost use Rattle.std.specs.Int.{int_gap};
ghost use Rattle.eb_value.specs.declared.value.Value.{Value};
ghost use Rattle.eb_value.specs.declared.scope.Scope.{Scope};
ghost use Rattle.eb_value.specs.declared.types.EbType.{EbType};
ghost use Rattle.eb_value.specs.Comprehensions as set;
ghost use Rattle.eb_value.specs.Scopes.{ints_from};
ghost use Rattle.eb_value.specs.Types.{integer, product};
ghost use Rattle.eb_value.specs.Typing.{has_type, have_type};

/// Where the members of the arguments have the types that the table of types asks, those of the result have
/// the type that it gives.
pub fn operators_keep_types()
    ensures set_of { (scope : Scope) (t : EbType) (xs : List Value)
        → have_type scope xs t ≡ true → have_type scope (set.set_of xs) t ≡ true }
    ensures union { (scope : Scope) (t : EbType) (a b : List Value) → have_type scope a t ≡ true
        → have_type scope b t ≡ true → have_type scope (set.union a b) t ≡ true }
    ensures meet { (scope : Scope) (t : EbType) (a b : List Value) → have_type scope a t ≡ true
        → have_type scope b t ≡ true → have_type scope (set.meet a b) t ≡ true }
    ensures minus { (scope : Scope) (t : EbType) (a b : List Value) → have_type scope a t ≡ true
        → have_type scope b t ≡ true → have_type scope (set.minus a b) t ≡ true }
    ensures cross { (scope : Scope) (t u : EbType) (a b : List Value) → have_type scope a t ≡ true
        → have_type scope b u ≡ true → have_type scope (set.cross a b) (product t u) ≡ true }
    ensures domain { (scope : Scope) (t u : EbType) (r : List Value)
        → have_type scope r (product t u) ≡ true → have_type scope (set.domain r) t ≡ true }
    ensures range { (scope : Scope) (t u : EbType) (r : List Value)
        → have_type scope r (product t u) ≡ true → have_type scope (set.range r) u ≡ true }
    ensures inverse { (scope : Scope) (t u : EbType) (r : List Value)
        → have_type scope r (product t u) ≡ true → have_type scope (set.inverse r) (product u t) ≡ true }
    ensures dom_keep { (scope : Scope) (t u : EbType) (s r : List Value) → have_type scope s t ≡ true
        → have_type scope r (product t u) ≡ true → have_type scope (set.dom_keep s r) (product t u) ≡ true }
    ensures dom_drop { (scope : Scope) (t u : EbType) (s r : List Value) → have_type scope s t ≡ true
        → have_type scope r (product t u) ≡ true → have_type scope (set.dom_drop s r) (product t u) ≡ true }
    ensures ran_keep { (scope : Scope) (t u : EbType) (r s : List Value)
        → have_type scope r (product t u) ≡ true → have_type scope s u ≡ true
        → have_type scope (set.ran_keep r s) (product t u) ≡ true }
    ensures ran_drop { (scope : Scope) (t u : EbType) (r s : List Value)
        → have_type scope r (product t u) ≡ true → have_type scope s u ≡ true
        → have_type scope (set.ran_drop r s) (product t u) ≡ true }
    ensures image { (scope : Scope) (t u : EbType) (r s : List Value)
        → have_type scope r (product t u) ≡ true → have_type scope s t ≡ true
        → have_type scope (set.image r s) u ≡ true }
    ensures overlay { (scope : Scope) (t u : EbType) (f g : List Value)
        → have_type scope f (product t u) ≡ true → have_type scope g (product t u) ≡ true
        → have_type scope (set.overlay f g) (product t u) ≡ true }
    ensures compose { (scope : Scope) (t u w : EbType) (r s : List Value)
        → have_type scope r (product t u) ≡ true → have_type scope s (product u w) ≡ true
        → have_type scope (set.compose r s) (product t w) ≡ true }
    ensures direct { (scope : Scope) (t u w : EbType) (r s : List Value)
        → have_type scope r (product t u) ≡ true → have_type scope s (product t w) ≡ true
        → have_type scope (set.direct r s) (product t (product u w)) ≡ true }
    ensures parallel { (scope : Scope) (t u v w : EbType) (r s : List Value)
        → have_type scope r (product t u) ≡ true → have_type scope s (product v w) ≡ true
        → have_type scope (set.parallel r s) (product (product t v) (product u w)) ≡ true }
    ensures apply { (scope : Scope) (t u : EbType) (f : List Value) (x y : Value)
        → have_type scope f (product t u) ≡ true → has_type scope x t ≡ true
        → set.apply f x ≡ Some y → has_type scope y u ≡ true }
    ensures union_of { (scope : Scope) (t : EbType) (sets : List (List Value))
        → ((s : List Value) → Contains sets s → have_type scope s t ≡ true)
        → have_type scope (set.union_of sets) t ≡ true }
    ensures meet_of { (scope : Scope) (t : EbType) (sets : List (List Value)) (xs : List Value)
        → ((s : List Value) → Contains sets s → have_type scope s t ≡ true)
        → set.meet_of sets ≡ Some xs → have_type scope xs t ≡ true }
    ensures integers { (scope : Scope) (lo hi : ℤ) → negsuc 4611686018427387903 ≤ℤ lo
        → hi ≤ℤ pos 4611686018427387904
        → have_type scope (ints_from lo (int_gap lo (hi +ℤ pos 1))) integer ≡ true }
{}
