ghost use Rattle.std.specs.Prelude.{◌≡◌, ◌<◌, ◌^◌, ℤ, Some, not, ◌==◌, take, drop, length, option_map, codes};
ghost use Rattle.std.specs.List.{prefix_len};
ghost use Rattle.tree_form.specs.declared.line.Line.TheVariants as line;
ghost use Rattle.tree_form.specs.Lines as form;
ghost use Rattle.tree_form.specs.steps.Reading as spec;

use crate::line::{Line, LineFault};
use eb_term::{Choice, Problem};
use eb_value::{LIMIT, Shape};
use itoa::Buffer;

/// The line that a text is, without its line feed, for a problem.
///
/// `BadLine`: the text is that of no line. `NoSuchOccurrence`: it is, and names a choice or a fact
/// that the problem hasn't. `BadTest`: the choice is there, and its values aren't integers.
pub fn read_line(text: &[u8], problem: &Problem) -> Result<Line, LineFault>
    requires { length problem.now.choices < 2 ^ 32 }
    ensures { form.IsReading problem.now text.now result }
{
    read(text, problem)
}

/// What a text is read as, as one equation.
fn read(text: &[u8], problem: &Problem) -> Result<Line, LineFault>
    requires { length problem.now.choices < 2 ^ 32 }
    ensures { result ≡ spec.reading problem.now text.now }
{
    if let Some(line) = word(text) {
        return Ok(line);
    }
    if let Some(rest) = text.strip_prefix(b"s c") {
        return split(rest, problem);
    }
    if let Some(rest) = text.strip_prefix(b"x c") {
        return clash(rest, problem);
    }
    match text.strip_prefix(b"e ") {
        Some(rest) => eval(rest, problem),
        None => Err(LineFault::BadLine),
    }
}

/// Whether a text may stand before the tree.
fn is_header(text: &[u8]) -> bool
    ensures { result ≡ form.is_header text.now }
{
    text == b"refuted".as_slice()
        || text.starts_with(b"query ")
        || text.starts_with(b"note ")
        || text.starts_with(b"undecided ")
}

/// A line without numbers.
fn word(text: &[u8]) -> Option<Line>
    ensures { result ≡ spec.word_of text.now }
{
    if is_header(text) {
        Some(Line::Header)
    } else if text == b"tree 1".as_slice() {
        Some(Line::Begin)
    } else if text == b"end".as_slice() {
        Some(Line::End)
    } else if text == b"o".as_slice() {
        Some(Line::Open)
    } else {
        None
    }
}

/// The number within -2^62..2^62 whose printed form the text is.
fn integer(text: &[u8]) -> Option<i64>
    ensures { result ≡ spec.integer_of text.now }
{
    match str::from_utf8(text) {
        Ok(text) => parsed(text),
        Err(_) => None,
    }
}

/// The same of a text that is UTF-8.
fn parsed(text: &str) -> Option<i64>
    ensures { result ≡ spec.integer_of text.now }
{
    match text.parse::<i64>() {
        Ok(n) => printed(n, text.as_bytes()),
        Err(_) => None,
    }
}

/// The number, if it is within -2^62..2^62 and the text is its printed form.
fn printed(n: i64, text: &[u8]) -> Option<i64>
    ensures { result ≡ spec.printed n text.now }
{
    let mut buffer = Buffer::new();
    if -LIMIT <= n && n <= LIMIT && buffer.format(n).as_bytes() == text {
        Some(n)
    } else {
        None
    }
}

/// The number that isn't negative, whose printed form the text is.
fn natural(text: &[u8]) -> Option<u64>
    ensures { result ≡ spec.natural_of text.now }
{
    let n = integer(text)?;
    if n < 0 { None } else { Some(n as u64) }
}

/// How many bytes stand before the first space.
fn word_length(text: &[u8]) -> usize
    ensures { result ≡ spec.word_length text.now }
{
    text.iter().take_while(|byte| **byte != b' ').count()
}

/// The choice and the number of a split, after its `s c`.
fn split_of(text: &[u8]) -> Option<(u64, i64)>
    ensures { option_map (λ s. line.Split s.0 s.1) result ≡ spec.split_of text.now }
{
    let (choice, test) = text.split_at(word_length(text));
    let choice = natural(choice)?;
    let n = integer(test.strip_prefix(b" le - ")?)?;
    Some((choice, n))
}

/// Whether a choice's values are integers.
fn has_integers(choice: &Choice) -> bool
    ensures { result ≡ form.has_integers choice.now }
{
    matches!(&choice.ty.shape, Shape::Integer)
}

/// The split whose text, after `s c`, this is.
fn split(text: &[u8], problem: &Problem) -> Result<Line, LineFault>
    requires { length problem.now.choices < 2 ^ 32 }
    ensures { result ≡ spec.judged problem.now (spec.split_of text.now) }
{
    let Some((k, n)) = split_of(text) else {
        return Err(LineFault::BadLine);
    };
    match problem.choices.get(k as usize) {
        Some(choice) if has_integers(choice) => Ok(Line::Split(k as u32, n)),
        Some(_) => Err(LineFault::BadTest),
        None => Err(LineFault::NoSuchOccurrence),
    }
}

/// The line whose text, after `x c`, this is.
fn clash(text: &[u8], problem: &Problem) -> Result<Line, LineFault>
    requires { length problem.now.choices < 2 ^ 32 }
    ensures { result ≡ spec.judged problem.now (spec.clash_of text.now) }
{
    match natural(text) {
        Some(k) if k < problem.choices.len() as u64 => Ok(Line::Clash(k as u32)),
        Some(_) => Err(LineFault::NoSuchOccurrence),
        None => Err(LineFault::BadLine),
    }
}

/// The line whose text, after `e `, this is.
fn eval(text: &[u8], problem: &Problem) -> Result<Line, LineFault>
    ensures { result ≡ spec.judged problem.now (spec.eval_of text.now) }
{
    match natural(text) {
        Some(k) if k < problem.facts.len() as u64 => Ok(Line::Eval(k)),
        Some(_) => Err(LineFault::NoSuchOccurrence),
        None => Err(LineFault::BadLine),
    }
}
