//! Reads rows from the files that the words name, does what each row says with the library of values,
//! and prints the rows whose answer differs from what they want.
//!
//! A row is an operator, types, any number of arguments as they are printed, and what comes, parted by
//! ` | `. One type is that of each argument; of two, parted by a comma, the first is that of the first
//! argument, and the second that of the others, or that which `has_type` asks for. What comes may
//! begin or end with `..`, which stands for any text. A row `scope | LO | HI | SIZES` sets the scope of
//! the rows behind it. Empty lines and those that begin with `//` are no rows.
#![tactic(auto)]

mod answers;
mod setting;
mod types;

use answers::{Answer, of_read, of_types, word};
use eb_value::{EbType, Scope};
use setting::{nothing, set_scope, values_of};
use std::alloc::{AllocError, Global};
use std::{env, fs, io};
use types::types_of;

/// The parts of a row.
fn fields_of<'a>(alloc: Global, line: &'a str) -> Result<Vec<&'a str>, AllocError> {
    let mut fields = Vec::new(alloc);
    for field in line.split(" | ") {
        fields.push(field)?;
    }
    Ok(fields)
}

/// Writes what the library answers to an operator, the types that a field names, and arguments. False where
/// that is no row.
fn answer(
    alloc: Global,
    scope: &Scope,
    (operator, types): (&str, &str),
    arguments: &[&str],
    out: &mut String,
) -> Answer {
    let types = types_of(alloc, types)?;
    match types.as_slice() {
        [ty] => answer_at(alloc, scope, operator, (ty, ty), arguments, out),
        [second, first] => answer_at(alloc, scope, operator, (first, second), arguments, out),
        _ => Ok(false),
    }
}

fn answer_at(
    alloc: Global,
    scope: &Scope,
    operator: &str,
    (first, second): (&EbType, &EbType),
    arguments: &[&str],
    out: &mut String,
) -> Answer {
    if arguments.is_empty() {
        return of_types(alloc, scope, operator, (first, second), out);
    }
    let values = values_of(alloc, scope, (first, second), arguments)?;
    if values.len() == arguments.len() {
        of_read(alloc, scope, operator, second, values.as_slice(), out)
    } else if operator == "reads" {
        word("none", out)
    } else {
        Ok(false)
    }
}

/// Whether an answer is what is wanted.
fn agrees(answer: &[u8], want: &str) -> bool {
    if let Some(end) = want.strip_prefix("..") {
        answer.ends_with(end.as_bytes())
    } else if let Some(begin) = want.strip_suffix("..") {
        answer.starts_with(begin.as_bytes())
    } else {
        answer == want.as_bytes()
    }
}

/// How many rows there were, and how many differed.
#[derive(Drop)]
struct Tally {
    rows: u64,
    differ: u64,
}

/// Whether a line is no row.
fn is_blank(line: &str) -> bool {
    line.is_empty() || line.starts_with("//")
}

/// Writes the answer to the row of these fields, and tells whether it is what the row wants.
fn is_right(
    alloc: Global,
    scope: &Scope,
    fields: &[&str],
    came: &mut String,
) -> Result<bool, AllocError> {
    if let [operator, types, arguments @ .., want] = fields {
        if answer(alloc, scope, (operator, types), arguments, came)? {
            return Ok(agrees(came.as_bytes(), want));
        }
    }
    came.push_str("no row")?;
    Ok(false)
}

/// Judges a row, and prints it with what came where that differs from what is wanted.
fn judge(
    rt: &HostRuntime,
    scope: &Scope,
    line: &str,
    fields: &[&str],
    tally: &mut Tally,
) -> io::Result<()> {
    tally.rows = tally.rows.saturating_add(1);
    let mut came = String::new(rt.alloc());
    if is_right(rt.alloc(), scope, fields, &mut came)? {
        return Ok(());
    }
    tally.differ = tally.differ.saturating_add(1);
    println!(rt; "{}: {}", line, came.as_str())
}

/// Takes the scope that a line sets, or judges the row that it is.
fn take_line(rt: &HostRuntime, scope: &mut Scope, line: &str, tally: &mut Tally) -> io::Result<()> {
    let fields = fields_of(rt.alloc(), line)?;
    if set_scope(rt.alloc(), scope, fields.as_slice())? {
        return Ok(());
    }
    judge(rt, scope, line, fields.as_slice(), tally)
}

fn judge_all(rt: &HostRuntime, text: &str, tally: &mut Tally) -> io::Result<()> {
    let mut scope = nothing(rt.alloc());
    for line in text.lines() {
        if !is_blank(line) {
            take_line(rt, &mut scope, line, tally)?;
        }
    }
    Ok(())
}

fn judge_file(rt: &HostRuntime, file: &str, tally: &mut Tally) -> io::Result<()> {
    let text = fs::read_to_string(rt, file)?;
    judge_all(rt, text.as_str(), tally)
}

fn main(rt: HostRuntime) -> io::Result<()> {
    let mut tally = Tally { rows: 0, differ: 0 };
    for file in env::args(&rt)?.skip(1) {
        judge_file(&rt, file.as_str(), &mut tally)?;
    }
    println!(rt; "{} rows, {} differ", tally.rows, tally.differ)
}
