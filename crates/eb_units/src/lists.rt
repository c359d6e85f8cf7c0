//! Names, predicates and expressions, one behind the other.
ghost use Rattle.std.specs.Prelude.{◌<◌, ◌^◌, length, drop, IfErr};
ghost use Rattle.eb_signs.specs.declared.sign.Sign.TheVariants as sign;
ghost use Rattle.eb_parser.specs.steps.Finding.{Finds};
ghost use Rattle.eb_units.specs.steps.Descending.{IsPlaced};
ghost use Rattle.eb_units.specs.steps.Descending as spec;

use super::front::{
    at_label, at_name, at_sign, formula_at, label_at, name_at, next, sign_at, skip,
};
use super::many::{Listed, more};
use eb_lexer::Tokens;
use eb_parser::{FormulaKind, ParseFault};
use eb_signs::Sign;
use eb_syntax::{Ast, Identifier, Identifiers, LabelledPredicate};
use sqlite_items::Items;
use std::alloc::Global;

/// A name behind a comma or none.
impl Listed for Identifier {
    ghost begins = { spec.goes_on };

    ghost reads = { λ _. spec.next_name_at };

    #[tactic(auto, unfolding(crate::specs::steps::Descending::goes_on))]
    fn is_here(tokens: &Tokens, at: u32) -> bool {
        at_name(tokens, at) || at_sign(tokens, Sign::Comma, at)
    }

    #[tactic(auto, unfolding(crate::specs::steps::Descending::next_name_at))]
    fn take(alloc: Global, tokens: &Tokens, at: u32) -> Result<(Identifier, u32), ParseFault> {
        name_at(alloc, tokens, skip(tokens, Sign::Comma, at))
    }
}

/// The names here.
#[tactic(auto, unfolding(crate::specs::steps::Descending::names_at))]
pub(crate) fn names_at(
    alloc: Global,
    tokens: &Tokens,
    at: u32,
) -> Result<(Identifiers, u32), ParseFault>
    requires { length tokens.now < 2 ^ 32 }
    ensures exact { Finds tokens.now result (spec.names_at (spec.room tokens.now) (drop at tokens.now)) }
    ensures placed { IfErr result (IsPlaced tokens.now) }
{
    let (first, rest) = name_at(alloc, tokens, at)?;
    more::<Identifier>(alloc, tokens, first, rest)
}

/// The names behind this sign, none without it.
#[tactic(auto, unfolding(crate::specs::steps::Descending::names_behind_at))]
pub(crate) fn names_behind_at(
    alloc: Global,
    tokens: &Tokens,
    sign: Sign,
    at: u32,
) -> Result<(Identifiers, u32), ParseFault>
    requires { length tokens.now < 2 ^ 32 }
    ensures exact { Finds tokens.now result (spec.names_behind_at sign (spec.room tokens.now) (drop at tokens.now)) }
    ensures placed { IfErr result (IsPlaced tokens.now) }
{
    if at_sign(tokens, sign, at) {
        names_at(alloc, tokens, next(tokens, at))
    } else {
        Ok((Identifiers::new(alloc), at))
    }
}

/// The labelled predicate here.
impl Listed for LabelledPredicate {
    ghost begins = { spec.opens_labelled };

    ghost reads = { λ _. spec.labelled_at 201 };

    #[tactic(auto, unfolding(crate::specs::steps::Descending::opens_labelled))]
    fn is_here(tokens: &Tokens, at: u32) -> bool {
        at_label(tokens, at) || at_sign(tokens, Sign::Theorem, at)
    }

    #[tactic(auto, unfolding(crate::specs::steps::Descending::labelled_at))]
    fn take(
        alloc: Global,
        tokens: &Tokens,
        at: u32,
    ) -> Result<(LabelledPredicate, u32), ParseFault> {
        let is_theorem = at_sign(tokens, Sign::Theorem, at);
        let (label, rest) = label_at(alloc, tokens, skip(tokens, Sign::Theorem, at))?;
        let (predicate, rest) = formula_at(
            alloc,
            tokens,
            FormulaKind::Pred,
            skip(tokens, Sign::MemberOf, rest),
        )?;
        Ok((
            LabelledPredicate {
                is_theorem,
                label,
                predicate,
            },
            rest,
        ))
    }
}

/// An expression behind a comma.
impl Listed for Ast {
    ghost begins = { spec.at_sign sign.Comma };

    ghost reads = { λ _. spec.next_expr_at 201 };

    fn is_here(tokens: &Tokens, at: u32) -> bool {
        at_sign(tokens, Sign::Comma, at)
    }

    #[tactic(auto, unfolding(crate::specs::steps::Descending::next_expr_at))]
    fn take(alloc: Global, tokens: &Tokens, at: u32) -> Result<(Ast, u32), ParseFault> {
        let (_, rest) = sign_at(tokens, Sign::Comma, at)?;
        formula_at(alloc, tokens, FormulaKind::Expr, rest)
    }
}

/// The expressions here.
#[tactic(auto, unfolding(crate::specs::steps::Descending::exprs_at))]
pub(crate) fn exprs_at(
    alloc: Global,
    tokens: &Tokens,
    at: u32,
) -> Result<(Items<Ast>, u32), ParseFault>
    requires { length tokens.now < 2 ^ 32 }
    ensures exact { Finds tokens.now result (spec.exprs_at 201 (spec.room tokens.now) (drop at tokens.now)) }
    ensures placed { IfErr result (IsPlaced tokens.now) }
{
    let (first, rest) = formula_at(alloc, tokens, FormulaKind::Expr, at)?;
    more::<Ast>(alloc, tokens, first, rest)
}
