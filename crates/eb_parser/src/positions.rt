//! Positions in the tokens. A position is the number of a token, or how many there are; a place is counted in bytes of the text.
ghost use Rattle.std.specs.Prelude.{◌≡◌, drop};
ghost use Rattle.eb_parser.specs.Formulas as spec;

use eb_lexer::Token;

/// The tokens from this position on.
pub fn tokens_from(tokens: &[Token], position: u32) -> &[Token]
    ensures { result.now ≡ drop position tokens.now }
{
    match tokens.get(position as usize..) {
        Some(rest) => rest,
        None => &[],
    }
}

/// The end of the last token, or 0.
fn end_of(tokens: &[Token]) -> u32
    ensures { result ≡ spec.end_of tokens.now }
{
    match tokens.last() {
        Some(token) => token.end,
        None => 0,
    }
}

/// The place in bytes of the token at this position, or the end of the last token where there is none.
pub fn place_of(tokens: &[Token], position: u32) -> u32
    ensures { result ≡ spec.place_of tokens.now position }
{
    match tokens_from(tokens, position) {
        [first, ..] => first.start,
        [] => end_of(tokens),
    }
}
