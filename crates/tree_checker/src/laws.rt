//! What holds of refutation trees, for callers to cite.
ghost use Rattle.std.specs.Prelude.{List, ℕ, [], ◌∷◌, ◌≡◌, ◌+◌, ◌<◌, ◌≤◌, ◌^◌, ◌≤ℤ◌, true, length};
ghost use Rattle.std.specs.List.{list_all};
ghost use Rattle.eb_value.specs.Typing.{in_range};
ghost use Rattle.eb_value.specs.declared.scope.Scope.{Scope as ScopeValue};
ghost use Rattle.eb_term.specs.declared.problem.Problem.{Problem as ProblemValue};
ghost use Rattle.tree_form.specs.Lines.{has_small_numbers};
ghost use Rattle.tree_form.specs.declared.line.Line.{Line};
ghost use Rattle.eb_value.specs.declared.value.Value.{Value};
ghost use Rattle.eb_meaning.specs.Problems.{IsSolution};
ghost use Rattle.occ_store.specs.Stores as stores;
ghost use Rattle.tree_checker.specs.Trees as trees;
ghost use Rattle.tree_checker.specs.Verdicts.{LeadsTo};
ghost use Rattle.tree_checker.specs.Texts as texts;

use eb_term::Problem;
use eb_value::Scope;
use occ_store::first_stores_have_the_valuations;

/// Where a text, whoever wrote it, is that of a refutation of a problem, no valuation in the scope
/// makes each fact well-defined and true.
pub fn accepted_text_refutes()
    ensures { (scope : ScopeValue) → (problem : ProblemValue) → (text : List ℕ) → texts.IsAccepted scope problem text
        → (values : List Value) → IsSolution scope problem values → ⊥ }
{}

/// A tree that holds from the first store of choices of integers has fewer splits than there are
/// valuations, since the two parts of a split share none. Where each open line stands in a box with
/// two valuations or more, there are fewer splits and open lines together.
pub fn splits_are_fewer_than_valuations(scope: &Scope, problem: &Problem)
    requires integers { stores.HaveIntegers problem.now.choices }
    requires scope { scope.now.lo ≤ℤ scope.now.hi }
    ensures splits { (first : stores.Store) → (tree : trees.Tree) → stores.IsFirst scope.now problem.now.choices first
        → trees.Holds (trees.facts_of scope.now problem.now) first tree
        → trees.splits_of (trees.lines_of tree) + 1 ≤ stores.valuation_count scope.now problem.now.choices }
    ensures opens { (first : stores.Store) → (tree : trees.Tree) → stores.IsFirst scope.now problem.now.choices first
        → trees.Holds (trees.facts_of scope.now problem.now) first tree → trees.OpensAreLoose (first ∷ []) (trees.lines_of tree)
        → trees.splits_of (trees.lines_of tree) + trees.opens (trees.lines_of tree) + 1 ≤ stores.valuation_count scope.now problem.now.choices }
{
    first_stores_have_the_valuations();
}

/// The numbers of a tree that holds lie within -2^62..2^62, where the scope's integers do, and there
/// are not too many choices and facts. A split's number lies within the scope, since neither part is
/// empty.
pub fn trees_have_small_numbers()
    ensures { (scope : ScopeValue) → (problem : ProblemValue) → (first : stores.Store) → (tree : trees.Tree)
        → stores.HaveIntegers problem.choices → scope.lo ≤ℤ scope.hi → in_range scope.lo ≡ true → in_range scope.hi ≡ true
        → length problem.choices < 2 ^ 32 → length problem.facts ≤ 2 ^ 62
        → stores.IsFirst scope problem.choices first → trees.Holds (trees.facts_of scope problem) first tree
        → list_all has_small_numbers (trees.lines_of tree) ≡ true }
{
    first_stores_have_the_valuations();
}

/// Lines that leave no store to be closed are those of a tree that holds, and the other way round.
pub fn closing_lines_are_trees()
    ensures tree { (facts : trees.Facts) → (store : stores.Store) → (tree : trees.Tree) → trees.Holds facts store tree
        → LeadsTo facts (store ∷ []) (trees.lines_of tree) [] }
    ensures lines { (facts : trees.Facts) → (store : stores.Store) → (lines : List Line) → LeadsTo facts (store ∷ []) lines []
        → (tree : trees.Tree) × trees.Holds facts store tree × (trees.lines_of tree ≡ lines) }
{}

/// A text is accepted or partial just where it is the printed text of a tree that holds, behind
/// lines that may stand before it, with no number outside -2^62..2^62.
pub fn whole_texts_are_printed_trees()
    ensures whole { (scope : ScopeValue) → (problem : ProblemValue) → (first : stores.Store) → (text : List ℕ) → (count : ℕ)
        → texts.IsPrinted (texts.task_of scope problem first) text count → texts.IsWholeText (texts.task_of scope problem first) text count }
    ensures printed { (scope : ScopeValue) → (problem : ProblemValue) → (first : stores.Store) → (text : List ℕ) → (count : ℕ)
        → texts.IsWholeText (texts.task_of scope problem first) text count → texts.IsPrinted (texts.task_of scope problem first) text count }
{}
