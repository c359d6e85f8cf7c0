//! Numbers in their printed form.
ghost use Rattle.std.specs.Prelude.{◌≡◌};
ghost use Rattle.tree_lines.specs.steps.Reading as spec;

use eb_value::LIMIT;
use itoa::Buffer;

/// The number within -2^62..2^62 whose printed form the text is.
pub(crate) fn integer(text: &[u8]) -> Option<i64>
    ensures { result ≡ spec.integer_of text.now }
{
    match str::from_utf8(text) {
        Ok(text) => parsed(text),
        Err(_) => None,
    }
}

/// The same of a text that is UTF-8.
fn parsed(text: &str) -> Option<i64>
    ensures { result ≡ spec.integer_of text.now }
{
    match text.parse::<i64>() {
        Ok(n) => printed(n, text.as_bytes()),
        Err(_) => None,
    }
}

/// The number, if it is within -2^62..2^62 and the text is its printed form.
fn printed(n: i64, text: &[u8]) -> Option<i64>
    ensures { result ≡ spec.printed n text.now }
{
    let mut buffer = Buffer::new();
    if -LIMIT <= n && n <= LIMIT && buffer.format(n).as_bytes() == text {
        Some(n)
    } else {
        None
    }
}

/// The number that isn't negative, whose printed form the text is.
pub(crate) fn natural(text: &[u8]) -> Option<u64>
    ensures { result ≡ spec.natural_of text.now }
{
    let n = integer(text)?;
    if n < 0 { None } else { Some(n as u64) }
}
