//! The lines that begin a part of a record, and the words and numbers that stand behind it.

use crate::fault::Fault;
use cbc_outside::Calls;
use eb_names::{Name, Names};
use std::alloc::{AllocError, Global};

/// A part of a record, or of one of its texts.
#[derive(Clone, Copy)]
pub enum Part {
    Words,
    Reads,
    Writes,
    Room,
    Slowly,
    Status,
    Starts,
    Has,
    Judged,
    Model,
    Tree,
    File,
    Prints,
    Or,
    Begins,
    Ends,
    Line,
    Repeat,
    Lines,
    Bytes,
}

/// The words of the parts.
const PARTS: &[(&str, Part)] = &[
    ("words", Part::Words),
    ("reads", Part::Reads),
    ("writes", Part::Writes),
    ("room", Part::Room),
    ("slowly", Part::Slowly),
    ("status", Part::Status),
    ("starts", Part::Starts),
    ("has", Part::Has),
    ("judged", Part::Judged),
    ("model", Part::Model),
    ("tree", Part::Tree),
    ("file", Part::File),
    ("prints", Part::Prints),
    ("or", Part::Or),
    ("begins", Part::Begins),
    ("ends", Part::Ends),
    ("line", Part::Line),
    ("repeat", Part::Repeat),
    ("lines", Part::Lines),
    ("bytes", Part::Bytes),
];

/// The part with this word.
pub fn part_with(wanted: &str) -> Result<Part, Fault> {
    for (word, part) in PARTS {
        if *word == wanted {
            return Ok(*part);
        }
    }
    Err(Fault::UnknownPart)
}

/// The word of a part and what stands behind it, if the line begins one.
pub fn part_of(line: &str) -> Option<(&str, &str)> {
    let part = line.strip_suffix('\n')?.strip_prefix("-- ")?;
    match part.split_once(' ') {
        Some(both) => Some(both),
        None => Some((part, "")),
    }
}

/// The name of the record that a line begins.
pub fn name_of(line: &str) -> Option<&str> {
    line.strip_suffix('\n')?.strip_prefix("== ")
}

/// What stands between two `"`, or the text itself where it doesn't stand between two.
pub fn unquoted(text: &str) -> &str {
    match text.strip_prefix('"') {
        Some(rest) => rest.strip_suffix('"').unwrap_or(text),
        None => text,
    }
}

/// The words that single blanks part.
pub fn words_of(alloc: Global, text: &str) -> Result<Names, AllocError> {
    let mut words = Names::new(alloc);
    if !text.is_empty() {
        for word in text.split(' ') {
            words.push(Name::new(alloc, unquoted(word))?)?;
        }
    }
    Ok(words)
}

/// The numbers that single blanks part.
pub fn calls_of(alloc: Global, text: &str) -> Result<Calls, Fault> {
    let mut calls = Calls::new(alloc);
    for word in text.split(' ') {
        calls.push(number_of(word)? as u64)?;
    }
    Ok(calls)
}

/// The number that is written so.
pub fn number_of(text: &str) -> Result<usize, Fault> {
    match text.parse::<usize>() {
        Ok(number) => Ok(number),
        Err(_) => Err(Fault::BadArgument),
    }
}

/// A number and the text behind it, which isn't empty.
pub fn number_and_text(rest: &str) -> Result<(usize, &str), Fault> {
    match rest.split_once(' ') {
        Some((number, text)) if !unquoted(text).is_empty() => {
            Ok((number_of(number)?, unquoted(text)))
        }
        _ => Err(Fault::BadArgument),
    }
}

/// The exit status that is written so, which is one digit.
pub fn status_of(text: &str) -> Result<u8, Fault> {
    match text.as_bytes() {
        [digit @ b'0'..=b'6'] => Ok(*digit - b'0'),
        _ => Err(Fault::BadArgument),
    }
}

/// The byte that two hexadecimal digits write.
pub fn byte_of(text: &str) -> Result<u8, Fault> {
    match u8::from_str_radix(text, 16) {
        Ok(byte) if text.len() == 2 => Ok(byte),
        _ => Err(Fault::BadArgument),
    }
}
