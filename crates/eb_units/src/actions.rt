//! Actions.
ghost use Rattle.std.specs.Prelude.{◌<◌, ◌^◌, length, drop, IfErr, Err};
ghost use Rattle.eb_parser.specs.steps.Finding.{Finds};
ghost use Rattle.eb_units.specs.steps.Descending.{IsPlaced};
ghost use Rattle.eb_units.specs.steps.Descending as spec;

use super::front::{
    at_label, at_sign, fault_at, formula_at, label_at, name_at, next, sign_at, skip,
};
use super::lists::exprs_at;
use super::many::{Listed, more};
use eb_lexer::Tokens;
use eb_parser::{FormulaKind, ParseFault};
use eb_signs::Sign;
use eb_syntax::{Action, Assignment, Ast, Identifier, Identifiers};
use sqlite_items::{Boxed, Items};
use std::alloc::Global;

/// As many expressions as names.
fn as_many(
    tokens: &Tokens,
    names: Identifiers,
    values: Items<Ast>,
    at: u32,
) -> Result<(Assignment, u32), ParseFault>
    requires { length tokens.now < 2 ^ 32 }
    ensures exact { Finds tokens.now result (spec.as_many names values (drop at tokens.now)) }
    ensures placed { IfErr result (IsPlaced tokens.now) }
{
    if names.len() == values.len() {
        Ok((Assignment::BecomesEqual(names, values), at))
    } else {
        Err(fault_at(tokens, at))
    }
}

#[tactic(auto, unfolding(crate::specs::steps::Descending::equal_at))]
fn equal_at(
    alloc: Global,
    tokens: &Tokens,
    names: Identifiers,
    at: u32,
) -> Result<(Assignment, u32), ParseFault>
    requires { length tokens.now < 2 ^ 32 }
    ensures exact { Finds tokens.now result (spec.equal_at 201 (spec.room tokens.now) names (drop at tokens.now)) }
    ensures placed { IfErr result (IsPlaced tokens.now) }
{
    let (values, rest) = exprs_at(alloc, tokens, at)?;
    as_many(tokens, names, values, rest)
}

#[tactic(auto, unfolding(crate::specs::steps::Descending::such_at))]
fn such_at(
    alloc: Global,
    tokens: &Tokens,
    names: Identifiers,
    at: u32,
) -> Result<(Assignment, u32), ParseFault>
    requires { length tokens.now < 2 ^ 32 }
    ensures exact { Finds tokens.now result (spec.such_at 201 names (drop at tokens.now)) }
    ensures placed { IfErr result (IsPlaced tokens.now) }
{
    let (_, rest) = sign_at(tokens, Sign::BecomesSuchThat, at)?;
    let (condition, rest) = formula_at(alloc, tokens, FormulaKind::Pred, rest)?;
    Ok((Assignment::BecomesSuchThat(names, condition), rest))
}

/// What is behind the names of an assignment.
#[tactic(auto, unfolding(crate::specs::steps::Descending::assigned_at))]
fn assigned_at(
    alloc: Global,
    tokens: &Tokens,
    names: Identifiers,
    at: u32,
) -> Result<(Assignment, u32), ParseFault>
    requires { length tokens.now < 2 ^ 32 }
    ensures exact { Finds tokens.now result (spec.assigned_at 201 (spec.room tokens.now) names (drop at tokens.now)) }
    ensures placed { IfErr result (IsPlaced tokens.now) }
{
    if at_sign(tokens, Sign::Becomes, at) {
        equal_at(alloc, tokens, names, next(tokens, at))
    } else {
        such_at(alloc, tokens, names, at)
    }
}

#[tactic(auto, unfolding(crate::specs::steps::Descending::applied_at))]
fn applied_at(
    alloc: Global,
    tokens: &Tokens,
    name: Identifier,
    at: u32,
) -> Result<(Assignment, u32), ParseFault>
    requires { length tokens.now < 2 ^ 32 }
    ensures exact { Finds tokens.now result (spec.applied_at 201 name (drop at tokens.now)) }
    ensures placed { IfErr result (IsPlaced tokens.now) }
{
    let (argument, rest) = formula_at(alloc, tokens, FormulaKind::Expr, at)?;
    let argument = Boxed::new(alloc, argument)?;
    let (_, rest) = sign_at(tokens, Sign::RightParenthesis, rest)?;
    let (_, rest) = sign_at(tokens, Sign::Becomes, rest)?;
    let (value, rest) = formula_at(alloc, tokens, FormulaKind::Expr, rest)?;
    let assignment = Assignment::BecomesEqualAt(name, argument.into_inner(), value);
    Ok((assignment, rest))
}

#[tactic(auto, unfolding(crate::specs::steps::Descending::member_at))]
fn member_at(
    alloc: Global,
    tokens: &Tokens,
    name: Identifier,
    at: u32,
) -> Result<(Assignment, u32), ParseFault>
    requires { length tokens.now < 2 ^ 32 }
    ensures exact { Finds tokens.now result (spec.member_at 201 name (drop at tokens.now)) }
    ensures placed { IfErr result (IsPlaced tokens.now) }
{
    let (set, rest) = formula_at(alloc, tokens, FormulaKind::Expr, at)?;
    Ok((Assignment::BecomesMember(name, set), rest))
}

#[tactic(auto, unfolding(crate::specs::steps::Descending::several_at))]
fn several_at(
    alloc: Global,
    tokens: &Tokens,
    name: Identifier,
    at: u32,
) -> Result<(Assignment, u32), ParseFault>
    requires { length tokens.now < 2 ^ 32 }
    ensures exact { Finds tokens.now result (spec.several_at 201 (spec.room tokens.now) name (drop at tokens.now)) }
    ensures placed { IfErr result (IsPlaced tokens.now) }
{
    let (names, rest) = more::<Identifier>(alloc, tokens, name, at)?;
    assigned_at(alloc, tokens, names, rest)
}

/// What is behind the first name of an assignment.
#[tactic(auto, unfolding(crate::specs::steps::Descending::assigns_at))]
fn assigns_at(
    alloc: Global,
    tokens: &Tokens,
    name: Identifier,
    at: u32,
) -> Result<(Assignment, u32), ParseFault>
    requires { length tokens.now < 2 ^ 32 }
    ensures exact { Finds tokens.now result (spec.assigns_at 201 (spec.room tokens.now) name (drop at tokens.now)) }
    ensures placed { IfErr result (IsPlaced tokens.now) }
{
    if at_sign(tokens, Sign::LeftParenthesis, at) {
        applied_at(alloc, tokens, name, next(tokens, at))
    } else if at_sign(tokens, Sign::BecomesMember, at) {
        member_at(alloc, tokens, name, next(tokens, at))
    } else {
        several_at(alloc, tokens, name, at)
    }
}

#[tactic(auto, unfolding(crate::specs::steps::Descending::assignment_at))]
fn assignment_at(alloc: Global, tokens: &Tokens, at: u32) -> Result<(Assignment, u32), ParseFault>
    requires { length tokens.now < 2 ^ 32 }
    ensures exact { Finds tokens.now result (spec.assignment_at 201 (spec.room tokens.now) (drop at tokens.now)) }
    ensures placed { IfErr result (IsPlaced tokens.now) }
{
    let (name, rest) = name_at(alloc, tokens, at)?;
    assigns_at(alloc, tokens, name, rest)
}

/// The action here.
impl Listed for Action {
    ghost begins = { spec.at_label };

    ghost reads = { λ ts. spec.action_at 201 (spec.room ts) };

    fn is_here(tokens: &Tokens, at: u32) -> bool {
        at_label(tokens, at)
    }

    #[tactic(auto, unfolding(crate::specs::steps::Descending::action_at))]
    fn take(alloc: Global, tokens: &Tokens, at: u32) -> Result<(Action, u32), ParseFault> {
        let (label, rest) = label_at(alloc, tokens, at)?;
        let (assignment, rest) = assignment_at(alloc, tokens, skip(tokens, Sign::MemberOf, rest))?;
        Ok((Action { label, assignment }, rest))
    }
}
