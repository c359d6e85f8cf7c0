//! Laws about the definitions, each a clause of a function that does nothing.
ghost use Rattle.std.specs.Prelude.{◌≡◌, Some, List};
ghost use Rattle.std.specs.List.{All};
ghost use Rattle.eb_value.specs.declared.value.Value.{Value};
ghost use Rattle.tree_checker.specs.Trees.{Tree, lines_of, opens};
ghost use Rattle.tree_checker.specs.Texts.{IsAccepted, IsVerdict};
ghost use Rattle.tree_checker.specs.declared.verdict.Verdict.TheVariants as verdict;
ghost use Rattle.branch_search.specs.Search.{IsRefutation, IsUndecided};
ghost use Rattle.cbc_query.specs.Notes.{axioms_notes};
ghost use Rattle.model_text.specs.Asking.{IsLawful};
ghost use Rattle.cbc_answers.specs.Answers.{IsPlain, Witnesses, problem_of, refuted_text, undecided_text};

use model_text::Asked;
use tree_checker::{
    accepted_text_refutes, trees_have_small_numbers, whole_texts_are_printed_trees,
};
use witness_laws::solutions_are_witnesses;

/// Where a text, whoever wrote it, is an accepted refutation for a query, no values of the constants in the scope make each axiom
/// well-defined and true.
pub fn accepted_text_refutes_axioms(asked: &Asked, text: &[u8])
    requires { IsLawful asked.now }
    ensures { IsAccepted asked.now.scope (problem_of asked.now) text.now → (values : List Value) → Witnesses asked.now values → ⊥ }
{
    accepted_text_refutes();
    solutions_are_witnesses();
}

/// What is printed for a query that is refuted is an accepted text, and what is printed for an undecided one is a partial text with
/// as many open boxes as its tree. Names have no line feeds in them.
pub fn printed_trees_have_their_verdict(asked: &Asked, budget: u64)
    requires lawful { IsLawful asked.now }
    requires some { asked.now.problem ≡ Some (problem_of asked.now) }
    requires plain { All IsPlain (axioms_notes asked.now.scope asked.now.model asked.now.types) }
    ensures refuted { (tree : Tree) → IsRefutation asked.now.scope (problem_of asked.now) budget tree
        → IsVerdict asked.now.scope (problem_of asked.now) (refuted_text asked.now tree) verdict.Accepted }
    ensures undecided { (tree : Tree) → IsUndecided asked.now.scope (problem_of asked.now) budget tree
        → IsVerdict asked.now.scope (problem_of asked.now) (undecided_text asked.now budget tree) (verdict.Partial (opens (lines_of tree))) }
{
    trees_have_small_numbers();
    whole_texts_are_printed_trees();
}
