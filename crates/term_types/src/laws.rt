//! What holds of the types of terms, for callers to cite.
ghost use Rattle.std.specs.Prelude.{◌≡◌, List, Some, None};
ghost use Rattle.type_table.specs.Rows.{predicate, expression};
ghost use Rattle.eb_value.specs.declared.types.EbType.{EbType};
ghost use Rattle.eb_term.specs.declared.term.Term.{Term};
ghost use Rattle.eb_term.specs.Typed.{HasSort};
ghost use Rattle.term_types.specs.Types.{type_of};

/// The type of a term is that by which it is typed, and a predicate has none.
pub fn types_are_those_of_the_typing()
    ensures value { (types : List EbType) (t : Term) (ty : EbType)
        → HasSort types t (expression ty) → type_of t ≡ Some ty }
    ensures truth { (types : List EbType) (t : Term) → HasSort types t predicate → type_of t ≡ None }
{}
