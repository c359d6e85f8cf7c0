//! Runs the program on records, which are texts with the answers that are due, and prints each record that is answered
//! otherwise and how many there are.
//!
//! Its words name the files of records. What it prints is a line for each record that differs (file, name, what came), a line
//! for each file that can't be read to its end (file, line, why), which counts as one that differs, and last
//! `N records, M differ`.
//!
//! A record is
//!
//! ```text
//! == NAME                 one name a record, of its own in its file
//! -- words WORD WORD ..   the words behind the program's name, parted by single blanks; with no words, none. Where this line
//!                         is left out they are `solve m`, or `check m t` where there is a tree
//! -- model                the text of the file `m` follows
//! -- tree                 the text of the file `t` follows
//! -- file NAME            the text of another file follows. Of a name that stands again the first counts
//! -- reads NUMBER ..      the numbers of the source's calls that fail, from 1; opening and reading count together
//! -- writes NUMBER ..     the numbers of the sink's calls that fail
//! -- room N               how many bytes the sink takes; where this line is left out, 4 MiB
//! -- slowly               the source and the sink take one byte a call
//! -- status N             the exit status, 0 to 6, that is due. Each record has this line
//! -- prints               the whole output that is due follows
//! -- or                   another one follows, in the place of which `prints` may be
//! -- begins               the first lines of the output follow
//! -- ends                 its last lines follow
//! -- starts TEXT          its first line begins with TEXT
//! -- has N TEXT           exactly N of its lines begin with TEXT
//! -- judged TEXT          the verdict of `check` on the model `m` and the output as its tree: `accepted`, `partial 3`, or
//!                         `partial` alone, which stands for the number of lines `o` in the output, at least one
//! ```
//!
//! A text is the lines that follow, each with its line feed, up to the next line that begins with `-- ` or `== `. An empty line
//! is a line of it, and no lines are the empty text. Within a text,
//!
//! ```text
//! -- line TEXT            stands for TEXT with no line feed
//! -- repeat N TEXT        for N times TEXT, with no line feed
//! -- lines N TEXT         for N lines TEXT
//! -- bytes FF 0A ..       for these bytes
//! ```
//!
//! A word and a TEXT may stand between `"` and `"`: so `""` is the empty word, and `-- has 2 "e "` ends with a blank. Lines before the
//! first record begin with `#`, and are for the reader.
#![tactic(auto)]

mod compare;
mod draft;
mod fault;
mod paced;
mod parts;
mod record;
mod running;

use crate::compare::add_difference;
use crate::draft::Draft;
use crate::fault::Fault;
use crate::parts::name_of;
use std::{env, fs, io, str};

/// How many records have begun, and how many records and files differ.
#[derive(Drop)]
struct Tally {
    records: u64,
    differ: u64,
}

/// Prints a line for a record or a file that differs.
fn print_other(
    rt: &HostRuntime,
    file: &str,
    name: &str,
    came: &str,
    tally: &mut Tally,
) -> io::Result<()> {
    tally.differ = tally.differ.saturating_add(1);
    println!(rt; "{file}: {name}: {came}")
}

/// Prints why a file isn't read on from a line.
fn refuse(
    rt: &HostRuntime,
    file: &str,
    line: usize,
    fault: Fault,
    tally: &mut Tally,
) -> io::Result<()> {
    tally.differ = tally.differ.saturating_add(1);
    let why = fault.told();
    println!(rt; "{file}: line {line}: {why}")
}

/// Runs the record that ends here, if one has begun, and prints a line where it differs.
fn end_record(
    rt: &HostRuntime,
    file: &str,
    draft: &mut Draft<'_>,
    tally: &mut Tally,
) -> Result<(), Fault> {
    if !draft.end()? {
        return Ok(());
    }
    let mut others = String::new(rt.alloc());
    add_difference(rt.alloc(), draft, &mut others)?;
    if !others.is_empty() {
        print_other(rt, file, draft.name, others.as_str(), tally)?;
    }
    Ok(())
}

/// Takes a line, and runs the record that ended before it.
fn take_line<'a>(
    rt: &HostRuntime,
    file: &str,
    line: &'a str,
    draft: &mut Draft<'a>,
    tally: &mut Tally,
) -> Result<(), Fault> {
    draft.line = draft.line.saturating_add(1);
    match name_of(line) {
        Some(name) => {
            tally.records = tally.records.saturating_add(1);
            end_record(rt, file, draft, tally)?;
            draft.begin(name)
        }
        None => draft.take(line),
    }
}

/// Runs the records of the lines, up to the first fault.
fn run_lines<'a>(
    rt: &HostRuntime,
    file: &str,
    text: &'a str,
    draft: &mut Draft<'a>,
    tally: &mut Tally,
) -> Result<(), Fault> {
    for line in text.split_inclusive('\n') {
        take_line(rt, file, line, draft, tally)?;
    }
    end_record(rt, file, draft, tally)
}

/// Runs the records of a text.
fn run_text(rt: &HostRuntime, file: &str, text: &str, tally: &mut Tally) -> io::Result<()> {
    let mut draft = Draft::new(rt.alloc());
    match run_lines(rt, file, text, &mut draft, tally) {
        Ok(()) => Ok(()),
        Err(fault) => refuse(rt, file, draft.line, fault, tally),
    }
}

/// Runs the records of a file.
fn run_file(rt: &HostRuntime, file: &str, tally: &mut Tally) -> io::Result<()> {
    let bytes = fs::read(rt, file)?;
    match str::from_utf8(bytes.as_slice()) {
        Ok(text) => run_text(rt, file, text, tally),
        Err(_) => refuse(rt, file, 0, Fault::NotUtf8, tally),
    }
}

/// Runs the records of the files that the words name.
fn run_files(rt: &HostRuntime, tally: &mut Tally) -> io::Result<()> {
    for file in env::args(rt)?.skip(1) {
        run_file(rt, file.as_str(), tally)?;
    }
    Ok(())
}

fn main(rt: HostRuntime) -> io::Result<()> {
    let mut tally = Tally {
        records: 0,
        differ: 0,
    };
    run_files(&rt, &mut tally)?;
    let Tally { records, differ } = tally;
    println!(rt; "{records} records, {differ} differ")
}
