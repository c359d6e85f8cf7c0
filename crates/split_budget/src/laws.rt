//! What holds of fresh trees, for callers to cite.
ghost use Rattle.std.specs.Prelude.{◌≤◌, ◌+◌, max};
ghost use Rattle.eb_value.specs.declared.scope.Scope.{Scope};
ghost use Rattle.eb_term.specs.declared.problem.Problem.{Problem};
ghost use Rattle.occurrences.specs.Stores.{first_domains};
ghost use Rattle.refutation_trees.specs.Fresh.{fresh};
ghost use Rattle.refutation_trees.specs.Trees.{Tree, Holds, lines_of, opens, splits_of};
ghost use Rattle.split_budget.specs.Volumes.{valuation_count, HaveNoSets};

use domain_counts::domains_have_counts;
use occ_domains::domains_have_their_outcomes;

/// A fresh tree that holds from the first store of a problem has fewer splits and open boxes together than there are valuations,
/// where no choice has a type that contains sets: each split parts them, and each open box keeps two at least.
pub fn fresh_trees_split_within_their_valuations()
    ensures { (scope : Scope) (p : Problem) → HaveNoSets p.choices → (tree : Tree)
        → Holds (record { scope = scope; problem = p }) fresh (first_domains scope p) tree
        → splits_of (lines_of tree) + opens (lines_of tree) + 1 ≤ max 1 (valuation_count scope p.choices) }
{
    domains_have_counts();
    domains_have_their_outcomes();
}
