//! What holds of refutation trees, for callers to cite.
ghost use Rattle.std.specs.Prelude.{◌≡◌, ◌≤ℤ◌, List, [], ◌∷◌, pos, negsuc};
ghost use Rattle.eb_value.specs.declared.scope.Scope.{Scope};
ghost use Rattle.eb_value.specs.declared.value.Value.{Value};
ghost use Rattle.eb_term.specs.declared.problem.Problem.{Problem};
ghost use Rattle.eb_meaning.specs.Problems.{IsSolution};
ghost use Rattle.occurrences.specs.Stores.{Domains, first_domains};
ghost use Rattle.occurrences.specs.Typed.{IsTyped};
ghost use Rattle.tree_lines.specs.declared.line.Line.{Line};
ghost use Rattle.refutation_trees.specs.Fresh.{Task, Standing, anywhere};
ghost use Rattle.refutation_trees.specs.Trees.{Tree, Holds, lines_of, LeadsTo, opens};

use occ_domains::domains_have_their_outcomes;
use sound_rules::rules_keep_what_comes;

/// Lines that leave no store to be closed are those of a tree that holds, and the other way round, wherever lines may stand.
pub fn closing_lines_are_trees()
    ensures tree { (task : Task) (standing : Standing) (at : Domains) (tree : Tree) → Holds task standing at tree
        → LeadsTo task standing (at ∷ []) (lines_of tree) [] }
    ensures lines { (task : Task) (standing : Standing) (at : Domains) (lines : List Line) → LeadsTo task standing (at ∷ []) lines []
        → (tree : Tree) × Holds task standing at tree × (lines_of tree ≡ lines) }
    ensures anywhere { (task : Task) (standing : Standing) (at : Domains) (tree : Tree) → Holds task standing at tree → Holds task anywhere at tree }
{}

/// A tree without open lines that holds from the first store of a typed problem leaves no solution, where the scope's integers lie
/// within -2^62..2^62.
pub fn closed_trees_refute()
    ensures { (scope : Scope) → negsuc 4611686018427387903 ≤ℤ scope.lo → scope.hi ≤ℤ pos 4611686018427387904
        → (p : Problem) → IsTyped scope p → (standing : Standing) (tree : Tree)
        → Holds (record { scope = scope; problem = p }) standing (first_domains scope p) tree → opens (lines_of tree) ≡ 0
        → (values : List Value) → IsSolution scope p values → ⊥ }
{
    rules_keep_what_comes();
    domains_have_their_outcomes();
}
