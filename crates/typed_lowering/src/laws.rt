//! What holds of the terms of typed formulas, for callers to cite.

ghost use Rattle.std.specs.Prelude.{◌≡◌, ℕ, List, [], true, nat_lt, Some, Contains, slice_get};
ghost use Rattle.std.specs.List.{list_all};
ghost use Rattle.numbered_names.specs.declared.entries.Entry.{Entry};
ghost use Rattle.type_table.specs.Rows.{Sort, predicate};
ghost use Rattle.eb_value.specs.declared.scope.Scope.{Scope};
ghost use Rattle.eb_value.specs.declared.types.EbType.{EbType};
ghost use Rattle.eb_value.specs.Types.{carrier, power};
ghost use Rattle.eb_term.specs.Typed.{HasSort};
ghost use Rattle.eb_term.specs.Leaves.{references as places};
ghost use Rattle.eb_meaning.specs.Meaning.{Slot};
ghost use Rattle.eb_meaning.specs.Fitting.{fits};
ghost use Rattle.eb_resolved.specs.declared.resolved.Resolved.{Resolved};
ghost use Rattle.eb_model.specs.declared.model.LabelledFormula.{LabelledFormula};
ghost use Rattle.eb_model.specs.declared.model.ModelPart.TheVariants as part;
ghost use Rattle.eb_model.specs.declared.model.EbModel.{EbModel};
ghost use Rattle.eb_typing.specs.Numbering.{numbered};
ghost use Rattle.eb_typing.specs.Typing as formula;
ghost use Rattle.eb_typing.specs.Models.{Typed};
ghost use Rattle.eb_lowering.specs.declared.setting.Setting.{Setting};
ghost use Rattle.eb_lowering.specs.declared.around.Around.{Around};
ghost use Rattle.eb_lowering.specs.Lowering.{lowered, term_of};
ghost use Rattle.typed_lowering.specs.Settings.{EachKnown, GivesTyped, GivesFitting, AroundFits};
ghost use Rattle.typed_lowering.specs.Models.{Says};

/// A formula that is a predicate, or an expression of some type, becomes a term that is one, under binders whose values have
/// the types of their identifiers; and the term's literals and references fit where those of what is declared do. It refers to
/// places below a bound where what is declared does.
pub fn lowered_terms_are_typed()
    ensures typed { (s : Setting) → GivesTyped s
        → (r : Resolved) (sort : Sort) → formula.HasSort s.types (numbered r) sort
        → (bound : List EbType) (w : Around) → AroundFits s.types bound w
        → HasSort bound ((lowered s r).term w) sort }
    ensures fits { (s : Setting) → GivesTyped s
        → (scope : Scope) (refs : List Slot) → GivesFitting scope refs s
        → (r : Resolved) (sort : Sort) → formula.HasSort s.types (numbered r) sort
        → (bound : List EbType) (w : Around) → AroundFits s.types bound w
        → fits scope refs ((lowered s r).term w) ≡ true }
    ensures references { (s : Setting) → GivesTyped s
        → (bound : ℕ) → EachKnown s (λ t ty. list_all (λ n. nat_lt n bound) (places t) ≡ true)
        → (r : Resolved) (sort : Sort) → formula.HasSort s.types (numbered r) sort
        → (types : List EbType) (w : Around) → AroundFits s.types types w
        → list_all (λ n. nat_lt n bound) (places ((lowered s r).term w)) ≡ true }
{}

/// The axioms, invariants, theorems and guards of a typed model become typed predicates under no binder, whose literals and
/// references fit where those of what is declared do, and that refer to places below a bound where what is declared does. A
/// carrier set is a set of its own elements.
pub fn formulas_of_models_have_typed_terms()
    ensures typed { (m : EbModel) (s : Setting) → Typed m s.types → GivesTyped s
        → (l : LabelledFormula) → Says m l
        → HasSort [] (term_of s l.formula) predicate }
    ensures fits { (m : EbModel) (s : Setting) → Typed m s.types → GivesTyped s
        → (scope : Scope) (refs : List Slot) → GivesFitting scope refs s
        → (l : LabelledFormula) → Says m l
        → fits scope refs (term_of s l.formula) ≡ true }
    ensures references { (m : EbModel) (s : Setting) → Typed m s.types → GivesTyped s
        → (bound : ℕ) → EachKnown s (λ t ty. list_all (λ n. nat_lt n bound) (places t) ≡ true)
        → (l : LabelledFormula) → Says m l
        → list_all (λ n. nat_lt n bound) (places (term_of s l.formula)) ≡ true }
    ensures carriers { (m : EbModel) (types : List EbType) → Typed m types
        → (c : ℕ) (x : Entry) → Contains m.parts (part.Carrier c x)
        → slice_get types x.number ≡ Some (power (carrier c)) }
{}
