//! The form that a text has.
ghost use Rattle.std.specs.Prelude.{◌≡◌, ◌<◌, ◌^◌, Some, not, ◌==◌, option_map};
ghost use Rattle.tree_lines.specs.Words as words;
ghost use Rattle.tree_lines.specs.Written as form;
ghost use Rattle.tree_lines.specs.steps.Reading as spec;
ghost use Rattle.tree_lines.specs.steps.Seen.{seen, seen_test};

use crate::numbers::{integer, natural};
use crate::written::{Asked, Written};
use occurrences::{Place, Rule};

/// The form of a line that the text has, without its line feed.
pub(crate) fn form_of(text: &[u8]) -> Option<Written<'_>>
    ensures { option_map seen result ≡ spec.written_of text.now }
{
    if let Some(line) = word(text) {
        return Some(line);
    }
    if let Some(rest) = text.strip_prefix(b"s ") {
        return split(rest);
    }
    if let Some(rest) = text.strip_prefix(b"x ") {
        return clash(rest);
    }
    match text.strip_prefix(b"e ") {
        Some(rest) => eval(rest),
        None => narrow(text),
    }
}

/// Whether a text may stand before the tree.
fn is_header(text: &[u8]) -> bool
    ensures { result ≡ words.is_header text.now }
{
    text == b"refuted".as_slice()
        || text.starts_with(b"query ")
        || text.starts_with(b"note ")
        || text.starts_with(b"undecided ")
}

/// A line without numbers.
fn word(text: &[u8]) -> Option<Written<'_>>
    ensures { option_map seen result ≡ spec.word_of text.now }
{
    if is_header(text) {
        Some(Written::Header(text))
    } else if text == b"tree 1".as_slice() {
        Some(Written::Begin)
    } else if text == b"end".as_slice() {
        Some(Written::End)
    } else if text == b"o".as_slice() {
        Some(Written::Open)
    } else {
        None
    }
}

/// What follows the `s `.
fn split(text: &[u8]) -> Option<Written<'_>>
    ensures { option_map seen result ≡ spec.split_of text.now }
{
    let (occurrence, behind) = text.split_at(word_length(text));
    let (place, inside) = located(occurrence)?;
    let asked = test(behind.strip_prefix(b" ")?)?;
    Some(Written::Split(place, inside, asked))
}

/// What follows the `x `.
fn clash(text: &[u8]) -> Option<Written<'_>>
    ensures { option_map seen result ≡ spec.clash_of text.now }
{
    let (place, inside) = located(text)?;
    Some(Written::Clash(place, inside))
}

/// What follows the `e `.
fn eval(text: &[u8]) -> Option<Written<'_>>
    ensures { option_map seen result ≡ spec.eval_of text.now }
{
    let k = natural(text)?;
    Some(Written::Eval(k))
}

/// A line that begins with a rule's letter.
fn narrow(text: &[u8]) -> Option<Written<'_>>
    ensures { option_map seen result ≡ spec.narrow_of text.now }
{
    if let Some(rest) = text.strip_prefix(b"u ") {
        return narrowed(Rule::Up, rest);
    }
    if let Some(rest) = text.strip_prefix(b"d ") {
        return narrowed(Rule::Down, rest);
    }
    match text.strip_prefix(b"r ") {
        Some(rest) => narrowed(Rule::Refer, rest),
        None => None,
    }
}

/// What follows the rule's letter and a space.
fn narrowed(rule: Rule, text: &[u8]) -> Option<Written<'_>>
    ensures { option_map seen result ≡ spec.narrowed_of rule text.now }
{
    let (place, inside) = located(text)?;
    Some(Written::Narrow(rule, place, inside))
}

/// How many bytes stand before the first space.
fn word_length(text: &[u8]) -> usize
    ensures { result ≡ spec.word_length text.now }
{
    text.iter().take_while(|byte| **byte != b' ').count()
}

/// How many bytes stand before the first bracket.
fn number_length(text: &[u8]) -> usize
    ensures { result ≡ spec.number_length text.now }
{
    text.iter().take_while(|byte| **byte != b'[').count()
}

/// Whether a text has no space and no line feed.
fn is_word(text: &[u8]) -> bool
    ensures { result ≡ form.is_word text.now }
{
    text.iter().all(|byte| *byte != b' ' && *byte != b'\n')
}

/// A place and what stands in brackets behind it.
fn located(text: &[u8]) -> Option<(Place, &[u8])>
    ensures { option_map (λ x. (x.0, x.1.now)) result ≡ spec.located_of text.now }
{
    if let Some(rest) = text.strip_prefix(b"c") {
        let k = natural(rest)?;
        return Some((Place::Choice(k), b""));
    }
    if let Some(rest) = text.strip_prefix(b"d") {
        let k = natural(rest)?;
        return Some((Place::Definition(k), b""));
    }
    match text.strip_prefix(b"p") {
        Some(rest) => node(rest),
        None => None,
    }
}

/// What follows the `p`.
fn node(text: &[u8]) -> Option<(Place, &[u8])>
    ensures { option_map (λ x. (x.0, x.1.now)) result ≡ spec.node_of text.now }
{
    let (number, behind) = text.split_at(number_length(text));
    let k = natural(number)?;
    let inside = inside(behind)?;
    Some((Place::Node(k), inside))
}

/// What stands in brackets, nothing where there are none.
fn inside(text: &[u8]) -> Option<&[u8]>
    ensures { option_map (λ x. x.now) result ≡ spec.inside_of text.now }
{
    if text.is_empty() {
        return Some(text);
    }
    let inside = text.strip_prefix(b"[")?.strip_suffix(b"]")?;
    if !inside.is_empty() && is_word(inside) {
        Some(inside)
    } else {
        None
    }
}

/// The test that the text is.
fn test(text: &[u8]) -> Option<Asked<'_>>
    ensures { option_map seen_test result ≡ spec.test_of text.now }
{
    if text == b"def".as_slice() {
        Some(Asked::Defined)
    } else if text == b"true".as_slice() {
        Some(Asked::True)
    } else if text == b"false".as_slice() {
        Some(Asked::False)
    } else if text == b"undef".as_slice() {
        Some(Asked::Undefined)
    } else {
        value_test(text)
    }
}

/// The test of what stands at a path.
fn value_test(text: &[u8]) -> Option<Asked<'_>>
    ensures { option_map seen_test result ≡ spec.value_test_of text.now }
{
    if let Some(rest) = text.strip_prefix(b"le ") {
        let (path, n) = numbered(rest)?;
        return Some(Asked::AtMost(path, n));
    }
    if let Some(rest) = text.strip_prefix(b"is ") {
        let (path, word) = worded(rest)?;
        return Some(Asked::Is(path, word));
    }
    if let Some(rest) = text.strip_prefix(b"has ") {
        let (path, word) = worded(rest)?;
        return Some(Asked::Has(path, word));
    }
    let (path, n) = numbered(text.strip_prefix(b"card ")?)?;
    Some(Asked::Card(path, n))
}

/// A path and a number.
fn numbered(text: &[u8]) -> Option<(&[u8], i64)>
    ensures { option_map (λ x. (x.0.now, x.1)) result ≡ spec.numbered_of text.now }
{
    let (path, rest) = path(text)?;
    let n = integer(rest)?;
    Some((path, n))
}

/// A path and a word.
fn worded(text: &[u8]) -> Option<(&[u8], &[u8])>
    ensures { option_map (λ x. (x.0.now, x.1.now)) result ≡ spec.worded_of text.now }
{
    let (path, rest) = path(text)?;
    if is_word(rest) {
        Some((path, rest))
    } else {
        None
    }
}

/// The word of a path, and what stands behind it and a space.
fn path(text: &[u8]) -> Option<(&[u8], &[u8])>
    ensures { option_map (λ x. (x.0.now, x.1.now)) result ≡ spec.path_of text.now }
{
    let (word, behind) = text.split_at(word_length(text));
    let rest = behind.strip_prefix(b" ")?;
    if is_path(word) {
        Some((word, rest))
    } else {
        None
    }
}

/// Whether the text is the word of a path.
fn is_path(word: &[u8]) -> bool
    ensures { result ≡ spec.is_path word.now }
{
    word == b"-".as_slice() || (!word.is_empty() && is_of_sides(word))
}

/// Whether the text has nothing but `1` and `2`.
fn is_of_sides(word: &[u8]) -> bool
    ensures { result ≡ spec.is_of_sides word.now }
{
    word.iter().all(|byte| *byte == b'1' || *byte == b'2')
}
