//! What holds of values, of their order and of their texts, for callers to cite.

ghost use Rattle.std.specs.Prelude.{◌≡◌, ◌↔◌, ℕ, ◌<◌, ◌^◌, List, true, ℤ, pos, negsuc, ◌≤ℤ◌, All, Contains};
ghost use Rattle.std.specs.Ordering.{ordering_reverse};
ghost use Rattle.std.specs.declared.cmp.Ordering.TheVariants.{Less, Equal};
ghost use Rattle.eb_value.specs.declared.value.Value.{Value};
ghost use Rattle.eb_value.specs.declared.scope.Scope.{Scope};
ghost use Rattle.eb_value.specs.declared.types.EbType.{EbType};
ghost use Rattle.eb_value.specs.Types.{integer};
ghost use Rattle.eb_value.specs.Values as spec;
ghost use Rattle.eb_value.specs.Scopes.{vals};
ghost use Rattle.eb_value.specs.Texts.{AreReadable, StaysInRow, values_text};
ghost use Rattle.eb_value.specs.Typing.{has_type, is_bounded, AreOfTypes};

/// The order of values is total, and tells any two values apart.
pub fn order_is_total()
    ensures reflexive { (v : Value) → spec.compare v v ≡ Equal }
    ensures exact { (v w : Value) → spec.compare v w ≡ Equal → v ≡ w }
    ensures reversed { (v w : Value) → spec.compare w v ≡ ordering_reverse (spec.compare v w) }
    ensures transitive { (u v w : Value) →
        spec.compare u v ≡ Less → spec.compare v w ≡ Less → spec.compare u w ≡ Less }
{}

/// Ascending lists with the same members are equal.
pub fn members_determine_ascending_lists()
    ensures { (xs ys : List Value) → spec.is_ascending xs ≡ true → spec.is_ascending ys ≡ true
        → ((v : Value) → Contains xs v ↔ Contains ys v) → xs ≡ ys }
{}

/// The list of all values of a type is ascending.
pub fn values_are_ascending()
    ensures { (scope : Scope) (ty : EbType) → spec.is_ascending (vals scope ty) ≡ true }
{}

/// The list of all values of a type has exactly those values of the type whose integers lie
/// within the scope's bounds.
pub fn values_are_complete()
    ensures { (scope : Scope) → negsuc 4611686018427387903 ≤ℤ scope.lo
        → scope.hi ≤ℤ pos 4611686018427387904 → (ty : EbType) (v : Value)
        → Contains (vals scope ty) v
        ↔ ((has_type scope v ty ≡ true) × (is_bounded scope v ≡ true)) }
{}

/// The integers of a scope are those from its lower to its upper bound.
pub fn integers_lie_within_bounds()
    ensures { (scope : Scope) (v : Value) → Contains (vals scope integer) v
        ↔ ((n : ℤ) × (v ≡ spec.int n) × (scope.lo ≤ℤ n) × (n ≤ℤ scope.hi)) }
{}

/// Values of the same types with the same text are equal, where no name of a carrier set begins
/// with a closing brace and none of the sets has 2^32 atoms or more. Their text has no line feed, no
/// space and no closing bracket where no name has one.
pub fn values_are_told_by_their_texts()
    ensures told { (names : List (List ℕ)) → AreReadable names
        → (scope : Scope) → All (λ size. size < 2 ^ 32) scope.sizes
        → (types : List EbType) (vs ws : List Value)
        → AreOfTypes scope vs types → AreOfTypes scope ws types
        → values_text names vs ≡ values_text names ws → vs ≡ ws }
    ensures stays { (names : List (List ℕ)) → All (λ name. All StaysInRow name) names
        → (vs : List Value) → All StaysInRow (values_text names vs) }
{}
