ghost use Rattle.std.specs.Prelude.{◌≡◌, ◌^◌, ◌<◌, ◌⊎◌, length, List, IfOk, IfErr, Ok, Err};
ghost use Rattle.std.specs.Str.{chars};
ghost use Rattle.eb_lexer.specs.declared.token.Token.{Token};
ghost use Rattle.eb_lexer.specs.declared.token.LexFault.TheVariants.{Memory};
ghost use Rattle.eb_lexer.specs.Tokens as spec;

use super::pieces::{Next, front};
use super::token::{LexFault, Token, Tokens};
use sqlite_items::Items;
use std::alloc::{AllocError, Global};
use std::str;

/// The number of bytes of these characters.
fn size(text: &[char]) -> u32
    requires { spec.size text.now < 2 ^ 32 }
    ensures { result ≡ spec.size text.now }
{
    let mut bytes = 0;
    for c in text {
        bytes += c.len_utf8() as u32;
    }
    bytes
}

/// The characters of a text. The only error is want of memory.
fn chars_of(alloc: Global, text: &str) -> Result<Vec<char>, AllocError>
    ensures { IfOk result (λ v. v.items ≡ chars text.now) }
{
    let chars: Vec<char> = text.chars().collect(alloc)?;
    Ok(chars)
}

impl From<AllocError> for LexFault {
    ghost from_gives = { λ _ fault. fault ≡ Memory };

    fn from(_error: AllocError) -> LexFault {
        LexFault::Memory
    }
}

/// The tokens of a text, which has fewer than 2^32 bytes.
///
/// White space and comments part tokens: `//` to the end of the line, and `/*` to the next `*/`. At each other place
/// stands the longest token. The tokens' places ascend, and each is the bytes from `start` to before `end`.
/// It takes memory of four bytes for each character, besides the tokens.
/// The syntax is that of Métayer and Voisin, "The Event-B Mathematical Language" (2009), with its ASCII spellings.
///
/// Errors: NotUtf8 where the text isn't UTF-8; else BadToken with the first place, in bytes, at which neither white space
/// nor a comment nor a token begins, where there is one: a number above 2^62 and a `/*` without `*/` begin none.
pub fn tokens(alloc: Global, text: &[u8]) -> Result<Tokens, LexFault>
    requires { length text.now < 2 ^ 32 }
    ensures tokens { IfOk result (λ tokens. spec.IsTokens tokens text.now) }
    ensures cause { IfErr result (λ fault. spec.IsFaultOf text.now fault) }
    ensures complete { (ts : List Token) → spec.IsTokens ts text.now → (result ≡ Ok ts) ⊎ (result ≡ Err Memory) }
{
    let Ok(valid) = str::from_utf8(text) else {
        return Err(LexFault::NotUtf8);
    };
    let chars = chars_of(alloc, valid)?;
    let mut rest = chars.as_slice();
    let mut at = 0;
    let mut tokens = Items::new(alloc);
    loop {
        match front(alloc, rest)? {
            Next::End => return Ok(tokens),
            Next::Bad => return Err(LexFault::BadToken(at)),
            Next::Gap(len) => {
                let (gap, after) = rest.split_at(len);
                at += size(gap);
                rest = after;
            }
            Next::Found(kind, len) => {
                let (spelling, after) = rest.split_at(len);
                let start = at;
                at += size(spelling);
                rest = after;
                tokens.push(Token {
                    kind,
                    start,
                    end: at,
                })?;
            }
        }
    }
}
