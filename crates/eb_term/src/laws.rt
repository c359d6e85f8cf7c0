//! What holds of the nodes of terms, for callers to cite.

ghost use Rattle.std.specs.Prelude.{◌≡◌, ◌∷◌, [], ◌++◌, ℕ, Bool, List};
ghost use Rattle.std.specs.List.{flat_map};
ghost use Rattle.eb_value.specs.declared.types.EbType.{EbType};
ghost use Rattle.eb_value.specs.declared.value.Value.{Value};
ghost use Rattle.eb_term.specs.declared.operators.Unary.{Unary};
ghost use Rattle.eb_term.specs.declared.operators.Binary.{Binary};
ghost use Rattle.eb_term.specs.declared.operators.Binder.{Binder};
ghost use Rattle.eb_term.specs.declared.operators.Infinite.{Infinite};
ghost use Rattle.eb_term.specs.declared.operators.Many.{Many};
ghost use Rattle.eb_term.specs.declared.operators.Side.{Side};
ghost use Rattle.eb_term.specs.declared.term.Term.{Term};
ghost use Rattle.eb_term.specs.Terms as term;
ghost use Rattle.eb_term.specs.Nodes.{subterms};

/// The nodes of a term are the term itself and then those of its parts.
pub fn nodes_are_a_term_and_those_of_its_parts()
    ensures truth { (b : Bool) → subterms (term.truth b) ≡ term.truth b ∷ [] }
    ensures literal { (v : Value) (ty : EbType) → subterms (term.literal v ty) ≡ term.literal v ty ∷ [] }
    ensures reference { (place : ℕ) (ty : EbType) → subterms (term.reference place ty) ≡ term.reference place ty ∷ [] }
    ensures variable { (k : ℕ) (path : List Side) (ty : EbType) → subterms (term.variable k path ty) ≡ term.variable k path ty ∷ [] }
    ensures infinite { (i : Infinite) → subterms (term.infinite i) ≡ term.infinite i ∷ [] }
    ensures identity { (ty : EbType) → subterms (term.identity ty) ≡ term.identity ty ∷ [] }
    ensures projection { (s : Side) (a b : EbType) → subterms (term.projection s a b) ≡ term.projection s a b ∷ [] }
    ensures unary { (o : Unary) (a : Term) → subterms (term.unary o a) ≡ term.unary o a ∷ subterms a }
    ensures binary { (o : Binary) (a b : Term) → subterms (term.binary o a b) ≡ term.binary o a b ∷ subterms a ++ subterms b }
    ensures many { (o : Many) (ts : List Term) → subterms (term.many o ts) ≡ term.many o ts ∷ flat_map subterms ts }
    ensures over { (o : Binder) (range body : Term) → subterms (term.over o range body) ≡ term.over o range body ∷ subterms range ++ subterms body }
    ensures all { (o : Binder) (ty : EbType) (body : Term) → subterms (term.all o ty body) ≡ term.all o ty body ∷ subterms body }
{}
