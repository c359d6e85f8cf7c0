//! What stands at a position of the tokens. A position is the number of a token, or how many there are; a place is counted in
//! bytes of the text.
ghost use Rattle.std.specs.Prelude.{◌≡◌, ◌<◌, ◌^◌, length, drop, IfErr, Err, Ok, pos, int_le};
ghost use Rattle.eb_parser.specs.declared.fault.ParseFault.TheVariants as fault;
ghost use Rattle.eb_parser.specs.declared.fault.Fault.TheVariants.{Syntax};
ghost use Rattle.eb_parser.specs.Formulas as formulas;
ghost use Rattle.eb_parser.specs.steps.Finding as finding;
ghost use Rattle.eb_parser.specs.steps.Finding.{Finds};
ghost use Rattle.eb_units.specs.steps.Descending.{IsPlaced};
ghost use Rattle.eb_units.specs.steps.Descending as spec;

use eb_lexer::{TokenKind, Tokens};
use eb_parser::{FormulaKind, ParseFault, formula, place_of, tokens_from};
use eb_signs::Sign;
use eb_syntax::{Ast, Identifier, Label};
use std::alloc::Global;

/// The fault that nothing that is due stands here.
pub(crate) fn fault_at(tokens: &Tokens, at: u32) -> ParseFault
    ensures exact { result ≡ fault.Syntax (formulas.place_of tokens.now at) }
    ensures placed { IsPlaced tokens.now result }
{
    ParseFault::Syntax(place_of(tokens.as_slice(), at))
}

/// The position behind the token.
pub(crate) fn next(tokens: &Tokens, at: u32) -> u32
    requires { length tokens.now < 2 ^ 32 }
    ensures { drop result tokens.now ≡ spec.after_first (drop at tokens.now) }
{
    if (at as usize) < tokens.len() {
        at + 1
    } else {
        at
    }
}

/// Whether a token stands here.
pub(crate) fn is_token(tokens: &Tokens, at: u32) -> bool
    ensures { result ≡ spec.is_token (drop at tokens.now) }
{
    match tokens_from(tokens.as_slice(), at) {
        [_, ..] => true,
        [] => false,
    }
}

fn is_word(text: &str, kind: &TokenKind) -> bool
    ensures { result ≡ spec.is_word text.now kind.now }
{
    match kind {
        TokenKind::Word(word) => word.as_str() == text,
        _ => false,
    }
}

/// Whether this sign stands here.
#[tactic(auto, unfolding(crate::specs::steps::Descending::at_sign))]
pub(crate) fn at_sign(tokens: &Tokens, sign: Sign, at: u32) -> bool
    ensures { result ≡ spec.at_sign sign (drop at tokens.now) }
{
    match tokens_from(tokens.as_slice(), at) {
        [first, ..] => first.kind.is_sign(sign),
        [] => false,
    }
}

/// Whether this word stands here.
#[tactic(auto, unfolding(crate::specs::steps::Descending::at_word))]
pub(crate) fn at_word(tokens: &Tokens, text: &str, at: u32) -> bool
    ensures { result ≡ spec.at_word text.now (drop at tokens.now) }
{
    match tokens_from(tokens.as_slice(), at) {
        [first, ..] => is_word(text, &first.kind),
        [] => false,
    }
}

fn is_name(kind: &TokenKind) -> bool
    ensures { result ≡ spec.is_name kind.now }
{
    matches!(kind, TokenKind::Word(_))
}

fn is_label(kind: &TokenKind) -> bool
    ensures { result ≡ spec.is_label kind.now }
{
    matches!(kind, TokenKind::Label(_))
}

/// Whether a name stands here.
#[tactic(auto, unfolding(crate::specs::steps::Descending::at_name))]
pub(crate) fn at_name(tokens: &Tokens, at: u32) -> bool
    ensures { result ≡ spec.at_name (drop at tokens.now) }
{
    match tokens_from(tokens.as_slice(), at) {
        [first, ..] => is_name(&first.kind),
        [] => false,
    }
}

/// Whether a label stands here.
#[tactic(auto, unfolding(crate::specs::steps::Descending::at_label))]
pub(crate) fn at_label(tokens: &Tokens, at: u32) -> bool
    ensures { result ≡ spec.at_label (drop at tokens.now) }
{
    match tokens_from(tokens.as_slice(), at) {
        [first, ..] => is_label(&first.kind),
        [] => false,
    }
}

/// The start of the token, or 0.
pub(crate) fn place_at(tokens: &Tokens, at: u32) -> u32
    ensures { result ≡ spec.place_at (drop at tokens.now) }
{
    match tokens_from(tokens.as_slice(), at) {
        [first, ..] => first.start,
        [] => 0,
    }
}

/// The position behind this sign where it stands here, and else this one.
#[tactic(auto, unfolding(crate::specs::steps::Descending::skip))]
pub(crate) fn skip(tokens: &Tokens, sign: Sign, at: u32) -> u32
    requires { length tokens.now < 2 ^ 32 }
    ensures { drop result tokens.now ≡ spec.skip sign (drop at tokens.now) }
{
    if at_sign(tokens, sign, at) {
        next(tokens, at)
    } else {
        at
    }
}

/// The start of this sign.
#[tactic(auto, unfolding(crate::specs::steps::Descending::sign_at))]
pub(crate) fn sign_at(tokens: &Tokens, sign: Sign, at: u32) -> Result<(u32, u32), ParseFault>
    requires { length tokens.now < 2 ^ 32 }
    ensures exact { Finds tokens.now result (spec.sign_at sign (drop at tokens.now)) }
    ensures placed { IfErr result (IsPlaced tokens.now) }
{
    if at_sign(tokens, sign, at) {
        Ok((place_at(tokens, at), next(tokens, at)))
    } else {
        Err(fault_at(tokens, at))
    }
}

/// The start of this word.
#[tactic(auto, unfolding(crate::specs::steps::Descending::word_at))]
pub(crate) fn word_at(tokens: &Tokens, text: &str, at: u32) -> Result<(u32, u32), ParseFault>
    requires { length tokens.now < 2 ^ 32 }
    ensures exact { Finds tokens.now result (spec.word_at text.now (drop at tokens.now)) }
    ensures placed { IfErr result (IsPlaced tokens.now) }
{
    if at_word(tokens, text, at) {
        Ok((place_at(tokens, at), next(tokens, at)))
    } else {
        Err(fault_at(tokens, at))
    }
}

/// The name here.
pub(crate) fn name_at(
    alloc: Global,
    tokens: &Tokens,
    at: u32,
) -> Result<(Identifier, u32), ParseFault>
    requires { length tokens.now < 2 ^ 32 }
    ensures exact { Finds tokens.now result (spec.name_at (drop at tokens.now)) }
    ensures placed { IfErr result (IsPlaced tokens.now) }
{
    match tokens_from(tokens.as_slice(), at) {
        [first, ..] => match &first.kind {
            TokenKind::Word(name) => Ok((
                Identifier {
                    name: name.copied(alloc)?,
                    place: first.start,
                },
                next(tokens, at),
            )),
            _ => Err(fault_at(tokens, at)),
        },
        [] => Err(fault_at(tokens, at)),
    }
}

/// The label here.
pub(crate) fn label_at(alloc: Global, tokens: &Tokens, at: u32) -> Result<(Label, u32), ParseFault>
    requires { length tokens.now < 2 ^ 32 }
    ensures exact { Finds tokens.now result (spec.label_at (drop at tokens.now)) }
    ensures placed { IfErr result (IsPlaced tokens.now) }
{
    match tokens_from(tokens.as_slice(), at) {
        [first, ..] => match &first.kind {
            TokenKind::Label(name) => Ok((
                Label {
                    name: name.copied(alloc)?,
                    place: first.start,
                },
                next(tokens, at),
            )),
            _ => Err(fault_at(tokens, at)),
        },
        [] => Err(fault_at(tokens, at)),
    }
}

fn is_natural(n: i64) -> bool
    ensures { result ≡ int_le (pos 0) n }
{
    0 <= n
}

/// The number here.
pub(crate) fn number_at(tokens: &Tokens, at: u32) -> Result<(i64, u32), ParseFault>
    requires { length tokens.now < 2 ^ 32 }
    ensures exact { Finds tokens.now result (spec.number_at (drop at tokens.now)) }
    ensures placed { IfErr result (IsPlaced tokens.now) }
{
    match tokens_from(tokens.as_slice(), at) {
        [first, ..] => match &first.kind {
            TokenKind::Number(n) if is_natural(*n) => Ok((*n, next(tokens, at))),
            _ => Err(fault_at(tokens, at)),
        },
        [] => Err(fault_at(tokens, at)),
    }
}

/// The longest formula here.
pub(crate) fn formula_at(
    alloc: Global,
    tokens: &Tokens,
    kind: FormulaKind,
    at: u32,
) -> Result<(Ast, u32), ParseFault>
    requires { length tokens.now < 2 ^ 32 }
    ensures exact { Finds tokens.now result (finding.formula_at 201 kind (drop at tokens.now)) }
    ensures placed { IfErr result (IsPlaced tokens.now) }
{
    formula(alloc, tokens, at, kind)
}
