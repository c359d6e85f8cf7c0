ghost use Rattle.std.specs.Prelude.{◌≡◌, ◌++◌, IfOk, OnOk, codes, decimal};
ghost use Rattle.std.specs.Fmt.{signed_decimal};
ghost use Rattle.tree_form.specs.Lines as spec;

use crate::line::Line;
use eb_names::Bytes;
use itoa::Buffer;
use std::alloc::{AllocError, Global};

/// The text of a line, without a line feed. A header's is `refuted`. The only error is want of
/// memory.
pub fn line_text(alloc: Global, line: &Line) -> Result<Bytes, AllocError>
    ensures { IfOk result (λ text. text ≡ spec.line_text line.now) }
{
    let mut text = Vec::new(alloc);
    match *line {
        Line::Split(choice, n) => write_split(&mut text, choice, n)?,
        Line::Clash(choice) => write_numbered(&mut text, b"x c", choice.into())?,
        Line::Eval(fact) => write_numbered(&mut text, b"e ", fact)?,
        Line::Open => text.extend_from_slice(b"o")?,
        Line::Header => text.extend_from_slice(b"refuted")?,
        Line::Begin => text.extend_from_slice(b"tree 1")?,
        Line::End => text.extend_from_slice(b"end")?,
    }
    Ok(Bytes::from_vec(text))
}

/// Adds the text of a split.
fn write_split(text: &mut Vec<u8>, choice: u32, n: i64) -> Result<(), AllocError>
    ensures { OnOk result (text.new.items
        ≡ text.old.items ++ (codes "s c" ++ (decimal choice ++ (codes " le - " ++ signed_decimal n)))) }
{
    let mut buffer = Buffer::new();
    text.extend_from_slice(b"s c")?;
    text.extend_from_slice(buffer.format(choice).as_bytes())?;
    text.extend_from_slice(b" le - ")?;
    text.extend_from_slice(buffer.format(n).as_bytes())
}

/// Adds a word and a number.
fn write_numbered(text: &mut Vec<u8>, word: &[u8], number: u64) -> Result<(), AllocError>
    ensures { OnOk result (text.new.items ≡ text.old.items ++ (word.now ++ decimal number)) }
{
    let mut buffer = Buffer::new();
    text.extend_from_slice(word)?;
    text.extend_from_slice(buffer.format(number).as_bytes())
}
