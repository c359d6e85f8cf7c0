ghost use Rattle.std.specs.Prelude.{◌≡◌};
ghost use Rattle.eb_lexer.specs.Tokens as spec;

use eb_names::Name;
use eb_signs::Sign;
use sqlite_items::Items;
use thiserror::Error;

/// What a token is.
#[derive(Drop)]
pub enum TokenKind {
    /// An identifier that is no reserved word.
    Word(Name),
    /// An identifier with one `'` behind it. The name leaves the `'` out.
    Primed(Name),
    /// A label. The name leaves the `@` out.
    Label(Name),
    /// A number, at most 2^62.
    Number(i64),
    /// An operator, a bracket or a reserved word.
    Sign(Sign),
}

impl TokenKind {
    /// Whether the token is this sign.
    pub fn is_sign(&self, sign: Sign) -> bool
        ensures { result ≡ spec.is_kind sign self.now }
    {
        match self {
            TokenKind::Sign(found) => found.is(sign),
            _ => false,
        }
    }
}

/// A token and its place: the bytes from `start` to before `end`.
#[derive(Drop)]
pub struct Token {
    pub kind: TokenKind,
    pub start: u32,
    pub end: u32,
}

/// The tokens of a text. Their places ascend.
pub type Tokens = Items<Token>;

/// Why a text has no tokens.
#[derive(Clone, Copy, Debug, PartialEq, Eq, Error)]
pub enum LexFault {
    /// The text is not UTF-8.
    #[error("the text is not UTF-8")]
    NotUtf8,
    /// No token begins at this byte, the first such place.
    #[error("no token begins at byte {0}")]
    BadToken(u32),
    /// Memory ran out.
    #[error("memory ran out")]
    Memory,
}
