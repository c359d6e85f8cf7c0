ghost use Rattle.std.specs.Prelude.{◌≡◌, ◌-◌, ◌<◌, ◌≤◌, ◌⊎◌, ◌^◌, ℕ, length, drop, IfOk, IfErr, Ok, Err};
ghost use Rattle.eb_syntax.specs.declared.ast.Ast.{Ast};
ghost use Rattle.eb_parser.specs.declared.fault.ParseFault.TheVariants as fault;
ghost use Rattle.eb_parser.specs.Formulas as spec;
ghost use Rattle.eb_parser.specs.steps.Finding as steps;

use super::fault::{Fault, ParseFault, Stop};
use super::part::Part;
use super::positions::{place_of, tokens_from};
use super::reading::read;
use eb_lexer::{Token, Tokens};
use eb_signs::{is_expr, is_pred, level};
use eb_syntax::Ast;
use std::alloc::Global;

/// The kinds of formulas.
#[derive(Clone, Copy, Debug, PartialEq, Eq)]
pub enum FormulaKind {
    /// A predicate.
    Pred,
    /// An expression.
    Expr,
}

/// No formula that is answered is higher.
const HEIGHT: u32 = 200;

fn least_of(kind: FormulaKind) -> u32
    ensures { result ≡ spec.least_of kind }
{
    match kind {
        FormulaKind::Pred => level::PRED,
        FormulaKind::Expr => level::EXPR,
    }
}

fn fits(kind: FormulaKind, level: u32) -> bool
    ensures { result ≡ spec.fits kind level }
{
    match kind {
        FormulaKind::Pred => is_pred(level),
        FormulaKind::Expr => is_expr(level),
    }
}

/// The longest formula of the kind at the token with the number `from`, and the number of the token behind it.
///
/// The grammar is that of Métayer and Voisin, "The Event-B Mathematical Language" (2009). There are fewer than 2^32 tokens.
/// The height of a formula is the greatest number of operators, binders, calls, braces and parentheses on a path to a leaf.
///
/// Errors: Syntax, with the place of the token in bytes, where no formula of the kind begins there. TooDeep where the longest
/// one is higher than 200. TooDeep may also come where the tokens up to the next label or word of contexts and machines are
/// more than 200, and either no formula begins, or the longest one is followed by a connective, a relation, an operator, `(`,
/// `[` or `~`. Memory where memory ran out.
pub fn formula(
    alloc: Global,
    tokens: &Tokens,
    from: u32,
    kind: FormulaKind,
) -> Result<(Ast, u32), ParseFault>
    requires { length tokens.now < 2 ^ 32 }
    ensures found { IfOk result (λ x. (h : ℕ) × (h ≤ 200) × spec.IsLongest kind tokens.now from x.1 x.0 h) }
    ensures cause { IfErr result (λ f. spec.IsFaultOf kind tokens.now from f) }
    ensures exact { steps.Finds tokens.now result (steps.formula_at 201 kind (drop from tokens.now)) }
    ensures high { (end : ℕ) (a : Ast) (h : ℕ) → spec.IsLongest kind tokens.now from end a h → 200 < h → (result ≡ Err fault.TooDeep) ⊎ (result ≡ Err fault.Memory) }
    ensures complete { (end : ℕ) (a : Ast) (h : ℕ) → spec.IsLongest kind tokens.now from end a h → h ≤ 200 → (spec.Continues (drop end tokens.now) → ⊥) → (result ≡ Ok (a, end)) ⊎ (result ≡ Err fault.Memory) }
{
    let tokens = tokens.as_slice();
    match read(alloc, HEIGHT + 1, least_of(kind), tokens_from(tokens, from)) {
        Ok((part, rest)) => {
            if !fits(kind, part.level) {
                return Err(ParseFault::Syntax(place_of(tokens, from)));
            }
            let Part { tree, .. } = part;
            Ok((tree.into_inner(), count_before(tokens, rest)))
        }
        Err(Stop::Fault(Fault::Syntax)) => Err(ParseFault::Syntax(place_of(tokens, from))),
        Err(Stop::Fault(Fault::TooDeep)) => Err(ParseFault::TooDeep),
        Err(Stop::Memory) => Err(ParseFault::Memory),
    }
}

/// How many tokens stand before the rest.
fn count_before(tokens: &[Token], rest: &[Token]) -> u32
    requires { length tokens.now < 2 ^ 32 }
    ensures { result ≡ length tokens.now - length rest.now }
{
    tokens.len().saturating_sub(rest.len()) as u32
}
