//! What holds of the places of nodes, for callers to cite.
ghost use Rattle.std.specs.Prelude.{◌≡◌, ◌<◌, ◌≤◌, ℕ, Some, None, length, slice_get};
ghost use Rattle.eb_term.specs.declared.problem.Problem.{Problem};
ghost use Rattle.eb_term.specs.declared.term.Term.{Term};
ghost use Rattle.eb_term.specs.Nodes.{nodes_of};
ghost use Rattle.problem_nodes.specs.declared.nodes.Above.{Above};
ghost use Rattle.problem_nodes.specs.declared.nodes.Above.TheVariants as above;
ghost use Rattle.problem_nodes.specs.Places as spec;
ghost use Rattle.problem_nodes.specs.Aboves.{above_of};

/// Definitions, facts and the parts of nodes stand at their numbers; a part has a higher number than its node; and a node stands
/// below one thing alone: what `above_of` says.
pub fn nodes_have_their_places()
    ensures definitions { (p : Problem) (place k : ℕ) (t : Term) → slice_get p.definitions place ≡ Some t → slice_get (spec.definition_roots p) place ≡ Some k → slice_get (nodes_of p) k ≡ Some t }
    ensures facts { (p : Problem) (place k : ℕ) (t : Term) → slice_get p.facts place ≡ Some t → slice_get (spec.fact_roots p) place ≡ Some k → slice_get (nodes_of p) k ≡ Some t }
    ensures parts { (p : Problem) (number place k : ℕ) (t part : Term) → slice_get (nodes_of p) number ≡ Some t → slice_get (spec.parts t) place ≡ Some part
        → slice_get (spec.part_numbers number t) place ≡ Some k → slice_get (nodes_of p) k ≡ Some part }
    ensures below { (p : Problem) (k number place : ℕ) → spec.StandsBelow p k (above.Part number place) → number < k }
    ensures once { (p : Problem) (k : ℕ) (a b : Above) → spec.StandsBelow p k a → spec.StandsBelow p k b → a ≡ b }
    ensures there { (p : Problem) (k : ℕ) (a : Above) → above_of p k ≡ Some a → k < length (nodes_of p) }
    ensures past { (p : Problem) (k : ℕ) → length (nodes_of p) ≤ k → above_of p k ≡ None }
    ensures above { (p : Problem) (k : ℕ) (a : Above) → (spec.StandsBelow p k a → above_of p k ≡ Some a) × (above_of p k ≡ Some a → spec.StandsBelow p k a) }
{}
