ghost use Rattle.std.specs.Prelude.{◌≡◌, ◌++◌, [], ◌∷◌, ℕ, List, map, OnOk, IfOk};
ghost use Rattle.eb_lexer.specs.declared.token.Token.{Token};
ghost use Rattle.eb_lexer.specs.Tokens.{IsTokens};
ghost use Rattle.eb_parser.specs.declared.formulas.FormulaKind.{FormulaKind};
ghost use Rattle.eb_parser.specs.Formulas.{Stands};
ghost use Rattle.eb_lexer.specs.declared.token.TokenKind.TheVariants as kind;
ghost use Rattle.eb_signs.specs.declared.sign.Sign.TheVariants as signs;
ghost use Rattle.eb_spelling.specs.Spelling as spec;

use super::signs::{
    binder_sign, call_sign, constant_sign, operator_sign, prefix_sign, quantifier_sign,
};
use eb_lexer::TokenKind;
use eb_names::{Bytes, Name};
use eb_parser::closing_sign;
use eb_signs::{Sign, a_sign_is_spelled_by_its_text};
use eb_syntax::{Ast, Bound, Identifier, Mark, Node};
use itoa::Buffer;
use sqlite_items::Items;
use std::alloc::{AllocError, Global};

fn sign(out: &mut Items<TokenKind>, sign: Sign) -> Result<(), AllocError>
    ensures { OnOk result (out.new ≡ out.old ++ kind.Sign sign ∷ []) }
{
    out.push(TokenKind::Sign(sign))
}

fn word(alloc: Global, name: &Name, out: &mut Items<TokenKind>) -> Result<(), AllocError>
    ensures { OnOk result (out.new ≡ out.old ++ kind.Word name.now ∷ []) }
{
    let name = name.copied(alloc)?;
    out.push(TokenKind::Word(name))
}

fn primed(alloc: Global, name: &Name, out: &mut Items<TokenKind>) -> Result<(), AllocError>
    ensures { OnOk result (out.new ≡ out.old ++ kind.Primed name.now ∷ []) }
{
    let name = name.copied(alloc)?;
    out.push(TokenKind::Primed(name))
}

fn names(alloc: Global, names: &[Identifier], out: &mut Items<TokenKind>) -> Result<(), AllocError>
    ensures { OnOk result (out.new ≡ out.old ++ spec.name_kinds names.now) }
{
    let [first, others @ ..] = names else {
        return Ok(());
    };
    word(alloc, &first.name, out)?;
    for name in others {
        sign(out, Sign::Comma)?;
        word(alloc, &name.name, out)?;
    }
    Ok(())
}

fn mark(alloc: Global, mark: &Mark, out: &mut Items<TokenKind>) -> Result<(), AllocError>
    ensures { OnOk result (out.new ≡ out.old ++ spec.mark_kind mark.now ∷ []) }
{
    match mark {
        Mark::Identifier(name) => word(alloc, &name.name, out),
        Mark::MapsTo => sign(out, Sign::MapsTo),
        Mark::Open => sign(out, Sign::LeftParenthesis),
        Mark::Close => sign(out, Sign::RightParenthesis),
    }
}

fn pattern(alloc: Global, marks: &[Mark], out: &mut Items<TokenKind>) -> Result<(), AllocError>
    ensures { OnOk result (out.new ≡ out.old ++ map spec.mark_kind marks.now) }
{
    for item in marks {
        mark(alloc, item, out)?;
    }
    Ok(())
}

fn bound(alloc: Global, bound: &Bound, out: &mut Items<TokenKind>) -> Result<(), AllocError>
    ensures { OnOk result (out.new ≡ out.old ++ spec.bound_kinds bound.now) }
{
    match bound {
        Bound::Identifiers(found) => names(alloc, found.as_slice(), out),
        Bound::Pattern(marks) => pattern(alloc, marks.as_slice(), out),
    }
}

/// The sign, the names and the dot behind them.
fn opening(
    alloc: Global,
    begin: Sign,
    bound: &[Identifier],
    out: &mut Items<TokenKind>,
) -> Result<(), AllocError>
    ensures { OnOk result (out.new ≡ out.old ++ kind.Sign begin ∷ (spec.name_kinds bound.now ++ kind.Sign signs.Dot ∷ [])) }
{
    sign(out, begin)?;
    names(alloc, bound, out)?;
    sign(out, Sign::Dot)
}

/// The sign, what is bound and the dot behind it.
fn binding(
    alloc: Global,
    begin: Sign,
    what: &Bound,
    out: &mut Items<TokenKind>,
) -> Result<(), AllocError>
    ensures { OnOk result (out.new ≡ out.old ++ kind.Sign begin ∷ (spec.bound_kinds what.now ++ kind.Sign signs.Dot ∷ [])) }
{
    sign(out, begin)?;
    bound(alloc, what, out)?;
    sign(out, Sign::Dot)
}

fn closing(out: &mut Items<TokenKind>, close: Option<Sign>) -> Result<(), AllocError>
    ensures { OnOk result (out.new ≡ out.old ++ spec.closing_kinds close) }
{
    match close {
        Some(found) => sign(out, found),
        None => Ok(()),
    }
}

/// Writes the tokens of the formula to the end.
#[cycle(writing)]
fn write(alloc: Global, ast: &Ast, out: &mut Items<TokenKind>) -> Result<(), AllocError>
    ensures { OnOk result (out.new ≡ out.old ++ spec.kinds_of ast.now) }
{
    match &ast.node {
        Node::Number(n) => out.push(TokenKind::Number(*n)),
        Node::Identifier(name) => word(alloc, name, out),
        Node::Primed(name) => primed(alloc, name, out),
        Node::Constant(constant) => sign(out, constant_sign(*constant)),
        Node::Prefix(prefix, part) => {
            sign(out, prefix_sign(*prefix))?;
            write(alloc, part.get(), out)
        }
        Node::Call(call, part) => {
            sign(out, call_sign(*call))?;
            enclosed(alloc, part.get(), out)
        }
        Node::Parentheses(part) => enclosed(alloc, part.get(), out),
        Node::Inverse(part) => {
            write(alloc, part.get(), out)?;
            sign(out, Sign::Inverse)
        }
        Node::Operator(operator, left, right) => {
            write(alloc, left.get(), out)?;
            sign(out, operator_sign(*operator))?;
            write(alloc, right.get(), out)?;
            closing(out, closing_sign(*operator))
        }
        Node::Quantifier(quantifier, bound, part) => {
            opening(alloc, quantifier_sign(*quantifier), bound.as_slice(), out)?;
            write(alloc, part.get(), out)
        }
        Node::Binder(binder, what, condition, value) => {
            binding(alloc, binder_sign(*binder), what, out)?;
            write(alloc, condition.get(), out)?;
            sign(out, Sign::Bar)?;
            write(alloc, value.get(), out)
        }
        Node::Comprehension(bound, condition, value) => {
            opening(alloc, Sign::LeftBrace, bound.as_slice(), out)?;
            write(alloc, condition.get(), out)?;
            sign(out, Sign::Bar)?;
            write(alloc, value.get(), out)?;
            sign(out, Sign::RightBrace)
        }
        Node::Builder(value, condition) => {
            sign(out, Sign::LeftBrace)?;
            write(alloc, value.get(), out)?;
            sign(out, Sign::Bar)?;
            write(alloc, condition.get(), out)?;
            sign(out, Sign::RightBrace)
        }
        Node::Extension(members) => {
            sign(out, Sign::LeftBrace)?;
            row(alloc, members.as_slice(), out)?;
            sign(out, Sign::RightBrace)
        }
        Node::Partition(members) => {
            sign(out, Sign::Partition)?;
            sign(out, Sign::LeftParenthesis)?;
            row(alloc, members.as_slice(), out)?;
            sign(out, Sign::RightParenthesis)
        }
    }
}

/// The formula in parentheses.
#[cycle(writing)]
fn enclosed(alloc: Global, ast: &Ast, out: &mut Items<TokenKind>) -> Result<(), AllocError>
    ensures { OnOk result (out.new ≡ out.old ++ spec.sign signs.LeftParenthesis ∷ (spec.kinds_of ast.now ++ spec.sign signs.RightParenthesis ∷ [])) }
{
    sign(out, Sign::LeftParenthesis)?;
    write(alloc, ast, out)?;
    sign(out, Sign::RightParenthesis)
}

/// The formulas, parted by commas.
#[cycle(writing)]
fn row(alloc: Global, members: &[Ast], out: &mut Items<TokenKind>) -> Result<(), AllocError>
    ensures { OnOk result (out.new ≡ out.old ++ spec.row_kinds (map spec.kinds_of members.now)) }
{
    let [first, others @ ..] = members else {
        return Ok(());
    };
    write(alloc, first, out)?;
    for member in others {
        sign(out, Sign::Comma)?;
        write(alloc, member, out)?;
    }
    Ok(())
}

fn write_kind(text: &mut Vec<u8>, kind: &TokenKind) -> Result<(), AllocError>
    ensures { OnOk result (text.new.items ≡ text.old.items ++ spec.kind_text kind.now) }
{
    match kind {
        TokenKind::Word(name) => text.extend_from_slice(name.as_str().as_bytes()),
        TokenKind::Primed(name) => {
            text.extend_from_slice(name.as_str().as_bytes())?;
            text.extend_from_slice(b"'")
        }
        TokenKind::Label(name) => {
            text.extend_from_slice(b"@")?;
            text.extend_from_slice(name.as_str().as_bytes())
        }
        TokenKind::Number(n) => {
            let mut buffer = Buffer::new();
            text.extend_from_slice(buffer.format(*n).as_bytes())
        }
        TokenKind::Sign(found) => text.extend_from_slice(found.text().as_bytes()),
    }
}

/// The tokens as they are written, each with a blank behind it.
fn text_of(alloc: Global, kinds: &[TokenKind]) -> Result<Bytes, AllocError>
    ensures { IfOk result (λ text. text ≡ spec.text_of kinds.now) }
{
    let mut text = Vec::new(alloc);
    for kind in kinds {
        write_kind(&mut text, kind)?;
        text.extend_from_slice(b" ")?;
    }
    Ok(Bytes::from_vec(text))
}

/// The tokens of the formula in their ASCII spellings, each with a blank behind it: a text that reads as the formula but for
/// its places, where the formula is one that was read. The only error is want of memory.
///
/// The spellings are those of Métayer and Voisin, "The Event-B Mathematical Language" (2009).
pub fn spell(alloc: Global, ast: &Ast) -> Result<Bytes, AllocError>
    ensures text { IfOk result (λ text. text ≡ spec.text_of (spec.kinds_of ast.now)) }
    ensures reads { (k : FormulaKind) (tokens : List Token) (text : List ℕ) (from end h : ℕ) → IsTokens tokens text → Stands k tokens from end ast.now h
        → IfOk result (λ t. spec.ReadsAs k t ast.now h) }
{
    a_sign_is_spelled_by_its_text();
    let mut kinds = Items::new(alloc);
    write(alloc, ast, &mut kinds)?;
    text_of(alloc, kinds.as_slice())
}
