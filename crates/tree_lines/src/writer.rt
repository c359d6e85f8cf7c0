//! The texts of lines.
ghost use Rattle.std.specs.Prelude.{◌≡◌, ◌++◌, IfOk, OnOk, decimal, codes};
ghost use Rattle.std.specs.Fmt.{signed_decimal};
ghost use Rattle.eb_value.specs.Texts.{value_text as text_of_value};
ghost use Rattle.tree_lines.specs.Words as spec;

use crate::line::Line;
use eb_names::{Bytes, Names};
use eb_term::Side;
use eb_value::{Value, value_text, values_text};
use itoa::Buffer;
use occ_domains::Test;
use occurrences::{Occurrence, Place, Rule};
use std::alloc::{AllocError, Global};

/// The text of a line, without a line feed, by the names of the carrier sets. A header's is `refuted`. The only error is want
/// of memory.
pub fn line_text(alloc: Global, line: &Line, names: &Names) -> Result<Bytes, AllocError>
    ensures { IfOk result (λ text. text ≡ spec.line_text names.now line.now) }
{
    let mut text = Vec::new(alloc);
    write_line(&mut text, line, names)?;
    Ok(Bytes::from_vec(text))
}

/// Adds the text of a line, without a line feed, as `line_text` has it. The only error is want of memory.
pub fn write_line(text: &mut Vec<u8>, line: &Line, names: &Names) -> Result<(), AllocError>
    ensures { OnOk result (text.new.items ≡ text.old.items ++ spec.line_text names.now line.now) }
{
    match line {
        Line::Narrow(rule, occurrence) => {
            write_rule(text, *rule)?;
            write_occurrence(text, occurrence, names)
        }
        Line::Split(occurrence, test) => {
            text.extend_from_slice(b"s ")?;
            write_occurrence(text, occurrence, names)?;
            text.extend_from_slice(b" ")?;
            write_test(text, test, names)
        }
        Line::Clash(occurrence) => {
            text.extend_from_slice(b"x ")?;
            write_occurrence(text, occurrence, names)
        }
        Line::Eval(fact) => write_numbered(text, b"e ", *fact),
        Line::Open => text.extend_from_slice(b"o"),
        Line::Header => text.extend_from_slice(b"refuted"),
        Line::Begin => text.extend_from_slice(b"tree 1"),
        Line::End => text.extend_from_slice(b"end"),
    }
}

/// Adds a word and a number.
fn write_numbered(text: &mut Vec<u8>, word: &[u8], number: u64) -> Result<(), AllocError>
    ensures { OnOk result (text.new.items ≡ text.old.items ++ (word.now ++ decimal number)) }
{
    let mut buffer = Buffer::new();
    text.extend_from_slice(word)?;
    text.extend_from_slice(buffer.format(number).as_bytes())
}

/// Adds a rule's letter and a space.
fn write_rule(text: &mut Vec<u8>, rule: Rule) -> Result<(), AllocError>
    ensures { OnOk result (text.new.items ≡ text.old.items ++ spec.rule_text rule) }
{
    match rule {
        Rule::Up => text.extend_from_slice(b"u "),
        Rule::Down => text.extend_from_slice(b"d "),
        Rule::Refer => text.extend_from_slice(b"r "),
    }
}

/// Adds a place, with the values of the binders around it in brackets.
fn write_occurrence(
    text: &mut Vec<u8>,
    occurrence: &Occurrence,
    names: &Names,
) -> Result<(), AllocError>
    ensures { OnOk result (text.new.items ≡ text.old.items ++ spec.occurrence_text names.now occurrence.now.place occurrence.now.bound) }
{
    write_place(text, occurrence.place)?;
    let inside = values_text(*text.allocator(), occurrence.bound.as_slice(), names)?;
    write_bracketed(text, inside.as_slice())
}

fn write_place(text: &mut Vec<u8>, place: Place) -> Result<(), AllocError>
    ensures { OnOk result (text.new.items ≡ text.old.items ++ spec.place_text place) }
{
    match place {
        Place::Choice(k) => write_numbered(text, b"c", k),
        Place::Definition(k) => write_numbered(text, b"d", k),
        Place::Node(k) => write_numbered(text, b"p", k),
    }
}

/// Adds a text in brackets, or nothing.
fn write_bracketed(text: &mut Vec<u8>, inside: &[u8]) -> Result<(), AllocError>
    ensures { OnOk result (text.new.items ≡ text.old.items ++ spec.bracketed inside.now) }
{
    if inside.is_empty() {
        return Ok(());
    }
    text.extend_from_slice(b"[")?;
    text.extend_from_slice(inside)?;
    text.extend_from_slice(b"]")
}

fn write_test(text: &mut Vec<u8>, test: &Test, names: &Names) -> Result<(), AllocError>
    ensures { OnOk result (text.new.items ≡ text.old.items ++ spec.test_text names.now test.now) }
{
    match test {
        Test::AtMost(path, n) => write_at_most(text, path.as_slice(), *n),
        Test::Is(path, value) => write_is(text, path.as_slice(), value, names),
        Test::Defined => text.extend_from_slice(b"def"),
        Test::True => text.extend_from_slice(b"true"),
        Test::False => text.extend_from_slice(b"false"),
        Test::Undefined => text.extend_from_slice(b"undef"),
    }
}

fn write_at_most(text: &mut Vec<u8>, path: &[Side], n: i64) -> Result<(), AllocError>
    ensures { OnOk result (text.new.items ≡ text.old.items ++ (codes "le " ++ (spec.path_text path.now ++ (codes " " ++ signed_decimal n)))) }
{
    let mut buffer = Buffer::new();
    text.extend_from_slice(b"le ")?;
    write_path(text, path)?;
    text.extend_from_slice(b" ")?;
    text.extend_from_slice(buffer.format(n).as_bytes())
}

fn write_is(
    text: &mut Vec<u8>,
    path: &[Side],
    value: &Value,
    names: &Names,
) -> Result<(), AllocError>
    ensures { OnOk result (text.new.items ≡ text.old.items ++ (codes "is " ++ (spec.path_text path.now ++ (codes " " ++ text_of_value names.now value.now)))) }
{
    text.extend_from_slice(b"is ")?;
    write_path(text, path)?;
    text.extend_from_slice(b" ")?;
    let value = value_text(*text.allocator(), value, names)?;
    text.extend_from_slice(value.as_slice())
}

/// Adds the word of a path.
fn write_path(text: &mut Vec<u8>, path: &[Side]) -> Result<(), AllocError>
    ensures { OnOk result (text.new.items ≡ text.old.items ++ spec.path_text path.now) }
{
    if path.is_empty() {
        return text.extend_from_slice(b"-");
    }
    write_letters(text, path)
}

fn write_letters(text: &mut Vec<u8>, path: &[Side]) -> Result<(), AllocError>
    ensures { OnOk result (text.new.items ≡ text.old.items ++ spec.letters path.now) }
{
    for side in path {
        text.push(letter(*side))?;
    }
    Ok(())
}

fn letter(side: Side) -> u8
    ensures { result ≡ spec.side_letter side }
{
    match side {
        Side::First => b'1',
        Side::Second => b'2',
    }
}
