//! Reads rows of texts and of what the library is to make of them, and prints the rows that differ. Each word is `KIND=FILE`; a
//! row is one line of the file, its columns parted by tabs, and a line without a tab is a heading.
#![tactic(auto)]

mod columns;
mod formulas;
mod kinds;
mod shown_formulas;
mod shown_units;
mod tokens;
mod units;
mod writing;

use columns::bytes_of;
use kinds::{Kind, answer, kind_of};
use std::alloc::{AllocError, Global};
use std::{env, fs, io};

/// How many rows were read, and how many of them differ.
#[derive(Drop)]
struct Counts {
    rows: u64,
    differ: u64,
}

/// Writes what the library makes of the row, and tells whether that is the last of its columns.
fn is_right(alloc: Global, kind: Kind, row: &str, got: &mut String) -> Result<bool, AllocError> {
    let Some((text, want)) = row.rsplit_once('\t') else {
        return Ok(true);
    };
    answer(alloc, kind, text, got)?;
    let want = bytes_of(alloc, want)?;
    Ok(got.as_bytes() == want.as_slice())
}

/// Judges a row, and prints it with its kind and line where it differs.
fn judge(
    rt: &HostRuntime,
    (name, kind): (&str, Kind),
    (line, row): (u64, &str),
    counts: &mut Counts,
) -> io::Result<()> {
    counts.rows = counts.rows.saturating_add(1);
    let mut got = String::new(rt.alloc());
    if is_right(rt.alloc(), kind, row, &mut got)? {
        return Ok(());
    }
    counts.differ = counts.differ.saturating_add(1);
    println!(rt; "{name} {line}: {}", got.as_str())
}

fn judge_all(
    rt: &HostRuntime,
    (name, kind): (&str, Kind),
    text: &str,
    counts: &mut Counts,
) -> io::Result<()> {
    let mut line = 0u64;
    for row in text.lines() {
        line = line.saturating_add(1);
        if row.contains('\t') {
            judge(rt, (name, kind), (line, row), counts)?;
        }
    }
    Ok(())
}

fn judge_file(
    rt: &HostRuntime,
    (name, kind): (&str, Kind),
    file: &str,
    counts: &mut Counts,
) -> io::Result<()> {
    let text = fs::read_to_string(rt, file)?;
    judge_all(rt, (name, kind), text.as_str(), counts)
}

/// Judges the rows of the kind and of the file that a word names.
fn run_word(rt: &HostRuntime, word: &str, counts: &mut Counts) -> io::Result<()> {
    let Some((name, file)) = word.split_once('=') else {
        return println!(rt; "no kind and file: {word}");
    };
    match kind_of(name) {
        Some(kind) => judge_file(rt, (name, kind), file, counts),
        None => println!(rt; "no kind: {name}"),
    }
}

fn main(rt: HostRuntime) -> io::Result<()> {
    let mut counts = Counts { rows: 0, differ: 0 };
    for word in env::args(&rt)?.skip(1) {
        run_word(&rt, word.as_str(), &mut counts)?;
    }
    println!(rt; "{} rows, {} differ", counts.rows, counts.differ)
}
