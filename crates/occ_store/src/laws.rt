//! What holds of stores, for callers to cite.
ghost use Rattle.std.specs.Prelude.{◌≡◌, ◌<◌, ◌≤ℤ◌, List};
ghost use Rattle.eb_term.specs.declared.problem.Choice.{Choice};
ghost use Rattle.eb_value.specs.declared.scope.Scope.{Scope};
ghost use Rattle.occ_store.specs.Stores as spec;

use eb_value::integers_lie_within_bounds;

/// There is one first store of choices of integers, where the scope has an integer: it gives each
/// choice the integers of the scope. It has as many valuations as there are in the scope, at least
/// one.
pub fn first_stores_have_the_valuations()
    ensures exact { (scope : Scope) → (choices : List Choice) → (store : spec.Store) → spec.HaveIntegers choices
        → scope.lo ≤ℤ scope.hi → spec.IsFirst scope choices store → store ≡ spec.first_store scope choices }
    ensures count { (scope : Scope) → (choices : List Choice) → (store : spec.Store) → spec.HaveIntegers choices
        → scope.lo ≤ℤ scope.hi → spec.IsFirst scope choices store → spec.volume store ≡ spec.valuation_count scope choices }
    ensures some { (scope : Scope) → (choices : List Choice) → (store : spec.Store) → spec.HaveIntegers choices
        → scope.lo ≤ℤ scope.hi → spec.IsFirst scope choices store → 0 < spec.volume store }
{
    integers_lie_within_bounds();
}
