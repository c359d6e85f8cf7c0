ghost use Rattle.std.specs.Prelude.{◌≡◌, IfOk};
ghost use Rattle.occ_store.specs.Places.{has_at};
ghost use Rattle.occ_store.specs.Stores as spec;
ghost use Rattle.tree_checker.specs.Trees as trees;

use eb_meaning::{fact_at, slots_of};
use eb_term::{Problem, Term};
use eb_value::Scope;
use occ_store::Store;
use std::alloc::{AllocError, Global};

/// Whether the fact isn't True of the store's values.
fn is_untrue(
    alloc: Global,
    scope: &Scope,
    problem: &Problem,
    fact: &Term,
    store: &Store,
) -> Result<bool, AllocError>
    ensures { IfOk result (λ untrue. untrue ≡ trees.is_untrue (trees.facts_of scope.now problem.now) (spec.single_values store.now) fact.now) }
{
    let values = store.values(alloc)?;
    let slots = slots_of(
        alloc,
        scope,
        problem.definitions.as_slice(),
        values.as_slice(),
    )?;
    let truth = fact_at(alloc, scope, slots.as_slice(), fact)?;
    Ok(!truth.is_true())
}

/// Whether there is this fact, and it isn't True of the store's values.
pub(crate) fn is_untrue_at(
    alloc: Global,
    scope: &Scope,
    problem: &Problem,
    store: &Store,
    k: u64,
) -> Result<bool, AllocError>
    ensures { IfOk result (λ untrue. untrue ≡ has_at (trees.is_untrue (trees.facts_of scope.now problem.now) (spec.single_values store.now)) k problem.now.facts) }
{
    match problem.facts.get(k as usize) {
        Some(fact) => {
            let untrue = is_untrue(alloc, scope, problem, fact, store)?;
            Ok(untrue)
        }
        None => Ok(false),
    }
}
