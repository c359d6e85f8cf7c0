ghost use Rattle.std.specs.Prelude.{◌≡◌, List, [], ◌∷◌, take_while, length, IfOk, IfSome, ◌≤◌, ◌<◌};
ghost use Rattle.std.specs.Str.{encode_utf8_all};
ghost use Rattle.eb_lexer.specs.Tokens as spec;
ghost use Rattle.eb_lexer.specs.steps.Lexing as lexing;

use super::symbols::sign_at;
use super::token::TokenKind;
use eb_names::Name;
use eb_signs::reserved;
use std::alloc::{AllocError, Global};
use unicode_ident::{is_xid_continue, is_xid_start};

/// What stands at the front of a text: white space or a comment of so many characters, or a token of so many.
#[derive(Drop)]
pub(crate) enum Next {
    /// The text ends.
    End,
    /// Neither white space nor a comment nor a token begins.
    Bad,
    /// White space or a comment.
    Gap(usize),
    /// A token.
    Found(TokenKind, usize),
}

/// Whether the character is a sign by itself although Unicode counts it among the letters of identifiers.
fn is_sign_letter(c: char) -> bool
    ensures { result ≡ spec.is_sign_letter c }
{
    matches!(c, 'λ' | 'ℕ' | 'ℙ' | 'ℤ' | '·')
}

#[tactic(auto, unfolding(crate::specs::Tokens::starts_word))]
fn starts_word(c: char) -> bool
    ensures { result ≡ spec.starts_word c }
{
    (c == '_' || is_xid_start(c)) && !is_sign_letter(c)
}

#[tactic(auto, unfolding(crate::specs::Tokens::continues_word))]
fn continues_word(c: char) -> bool
    ensures { result ≡ spec.continues_word c }
{
    is_xid_continue(c) && !is_sign_letter(c)
}

#[tactic(auto, unfolding(crate::specs::Tokens::continues_label))]
fn continues_label(c: char) -> bool
    ensures { result ≡ spec.continues_label c }
{
    c == '-' || (is_xid_continue(c) && c != '·')
}

fn word_len(text: &[char]) -> usize
    ensures { result ≡ length (take_while spec.continues_word text.now) }
{
    text.iter().take_while(|c| continues_word(**c)).count()
}

fn label_len(text: &[char]) -> usize
    ensures { result ≡ length (take_while spec.continues_label text.now) }
{
    text.iter().take_while(|c| continues_label(**c)).count()
}

fn digits_len(text: &[char]) -> usize
    ensures { result ≡ length (take_while spec.is_digit text.now) }
{
    text.iter().take_while(|c| c.is_ascii_digit()).count()
}

fn line_len(text: &[char]) -> usize
    ensures { result ≡ length (take_while spec.is_in_line text.now) }
{
    text.iter().take_while(|c| **c != '\n').count()
}

/// No number is larger.
const LIMIT: u64 = 1 << 62;

/// The number that the digits write, if it is within the limit.
#[tactic(auto, unfolding(crate::specs::steps::Lexing::number_of))]
fn number(digits: &[char]) -> Option<i64>
    ensures { result ≡ lexing.number_of digits.now }
{
    let mut value = 0u64;
    for d in digits {
        let digit = u64::from(*d as u32).saturating_sub(48);
        value = value.saturating_mul(10).saturating_add(digit);
        if value > LIMIT {
            return None;
        }
    }
    Some(value as i64)
}

/// The name with these characters. The only error is want of memory.
fn name_of(alloc: Global, chars: &[char]) -> Result<Name, AllocError>
    ensures { IfOk result (λ name. name ≡ encode_utf8_all chars.now) }
{
    let mut text = String::new(alloc);
    for c in chars {
        text.push(*c)?;
    }
    Name::new(alloc, text.as_str())
}

fn first_word_len(text: &[char]) -> usize
    ensures value { result ≡ lexing.word_len text.now }
    ensures within { result ≤ length text.now }
{
    match text {
        [_, more @ ..] => 1 + word_len(more),
        [] => 0,
    }
}

/// The word at the front, a reserved one or an identifier, which is primed where a `'` follows; and its length.
#[tactic(auto, unfolding(crate::specs::steps::Lexing::word_at))]
fn word(alloc: Global, text: &[char]) -> Result<(TokenKind, usize), AllocError>
    ensures { IfOk result (λ x. x ≡ lexing.word_at text.now) }
{
    let len = first_word_len(text);
    let (word, rest) = text.split_at(len);
    let name = name_of(alloc, word)?;
    if let Some(sign) = reserved(name.as_str()) {
        return Ok((TokenKind::Sign(sign), len));
    }
    Ok(match rest {
        ['\'', ..] => (TokenKind::Primed(name), len + 1),
        _ => (TokenKind::Word(name), len),
    })
}

/// The number at the front, if it is within the limit, and how many digits it has.
#[tactic(auto, unfolding(crate::specs::steps::Lexing::number_at))]
fn number_token(text: &[char]) -> Option<(TokenKind, usize)>
    ensures { result ≡ lexing.number_at text.now }
{
    let len = digits_len(text);
    let value = number(text.split_at(len).0)?;
    Some((TokenKind::Number(value), len))
}

/// The label whose `@` stands before the text, and its length with the `@`.
#[tactic(auto, unfolding(crate::specs::steps::Lexing::label_at))]
fn label(alloc: Global, text: &[char]) -> Result<Option<(TokenKind, usize)>, AllocError>
    ensures { IfOk result (λ x. x ≡ lexing.label_at text.now) }
{
    let len = label_len(text);
    if len == 0 {
        return Ok(None);
    }
    let name = name_of(alloc, text.split_at(len).0)?;
    Ok(Some((TokenKind::Label(name), 1 + len)))
}

/// The token at the front of a text that begins with neither white space nor a comment, and its length.
#[tactic(auto, unfolding(crate::specs::steps::Lexing::token_at))]
fn token(alloc: Global, text: &[char]) -> Result<Option<(TokenKind, usize)>, AllocError>
    ensures { IfOk result (λ x. x ≡ lexing.token_at text.now) }
{
    let [first, after @ ..] = text else {
        return Ok(None);
    };
    if starts_word(*first) {
        let found = word(alloc, text)?;
        return Ok(Some(found));
    }
    if first.is_ascii_digit() {
        return Ok(number_token(text));
    }
    if *first == '@' {
        return label(alloc, after);
    }
    let Some((sign, len)) = sign_at(text) else {
        return Ok(None);
    };
    Ok(Some((TokenKind::Sign(sign), len)))
}

fn begins_close(text: &[char]) -> bool
    ensures { result ≡ spec.begins_close text.now }
{
    matches!(text, ['*', '/', ..])
}

/// The number of characters before the first `*/`.
fn close_at(text: &[char]) -> Option<usize>
    ensures value { result ≡ lexing.close_at text.now }
    ensures within { IfSome result (λ len. len < length text.now) }
{
    let mut rest = text;
    let mut before = 0;
    while let [_, after @ ..] = rest {
        if begins_close(rest) {
            return Some(before);
        }
        rest = after;
        before += 1;
    }
    None
}

/// The comment that goes on with this text behind its `/*`, if it is closed.
fn block(text: &[char]) -> Next
    ensures { lexing.seen result ≡ lexing.block_step (lexing.close_at text.now) }
{
    match close_at(text) {
        Some(len) => Next::Gap(len + 4),
        None => Next::Bad,
    }
}

fn found(alloc: Global, text: &[char]) -> Result<Next, AllocError>
    ensures { IfOk result (λ next. lexing.seen next ≡ lexing.token_step (lexing.token_at text.now)) }
{
    let token = token(alloc, text)?;
    Ok(match token {
        Some((kind, len)) => Next::Found(kind, len),
        None => Next::Bad,
    })
}

/// The comment or token at the front.
fn solid(alloc: Global, text: &[char]) -> Result<Next, AllocError>
    requires { 0 < length text.now }
    ensures { IfOk result (λ next. lexing.seen next ≡ lexing.solid text.now) }
{
    match text {
        ['/', '/', line @ ..] => Ok(Next::Gap(line_len(line) + 2)),
        ['/', '*', body @ ..] => Ok(block(body)),
        _ => found(alloc, text),
    }
}

/// What stands at the front of the text. The only error is want of memory.
#[tactic(auto, unfolding(crate::specs::steps::Lexing::next))]
pub(crate) fn front(alloc: Global, text: &[char]) -> Result<Next, AllocError>
    ensures { IfOk result (λ next. lexing.seen next ≡ lexing.next text.now) }
{
    match text {
        [] => Ok(Next::End),
        [first, ..] if first.is_whitespace() => Ok(Next::Gap(1)),
        _ => solid(alloc, text),
    }
}
