//! The program: it carries out the command of its words over the system's files.
#![tactic(auto)]

use cbc_outside::{FileSource, OutSink};
use cbc_top::{Status, run};
use eb_names::{Name, Names};
use std::io::ErrorKind;
use std::process::ExitCode;
use std::{env, io};

/// The words after the program's name.
///
/// Errors: one of the kind `OutOfMemory` where memory ran out, and else one of another kind, where a word isn't UTF-8.
fn words_of(rt: &HostRuntime) -> io::Result<Names> {
    let alloc = rt.alloc();
    let mut words = Names::new(alloc);
    for word in env::args(rt)?.skip(1) {
        words.push(Name::new(alloc, word.as_str())?)?;
    }
    Ok(words)
}

/// Carries out the command of the words, and answers its status. Words that aren't UTF-8 are no command.
fn outcome(rt: &HostRuntime, src: &mut FileSource<'_, HostRuntime>) -> Status {
    let alloc = rt.alloc();
    let words = match words_of(rt) {
        Ok(words) => words,
        Err(error) => {
            if error.kind() == ErrorKind::OutOfMemory {
                return Status::Memory;
            }
            Names::new(alloc)
        }
    };
    let mut out = OutSink::new(io::writer(rt));
    run(alloc, words.as_slice(), src, &mut out)
}

/// Writes a line to the standard error that says what failed, where something did.
fn tell(rt: &HostRuntime, status: Status, src: &FileSource<'_, HostRuntime>) -> io::Result<()> {
    match status {
        Status::ReadFault => {
            let name = match src.fault_name() {
                Some(name) => name.as_str(),
                None => "",
            };
            eprintln!(rt; "tembuksis: cannot read the file {name}")
        }
        Status::WriteFault => eprintln!(rt; "tembuksis: the output could not be written"),
        Status::Memory => eprintln!(rt; "tembuksis: memory ran out"),
        Status::Decided | Status::NotHeld | Status::Refused | Status::Undecided => Ok(()),
    }
}

fn main(rt: HostRuntime) -> ExitCode {
    let mut src = FileSource::new(&rt);
    let status = outcome(&rt, &mut src);
    // Where this line can't be written either, the status alone says it.
    let _ = tell(&rt, status, &src);
    ExitCode::from(status as u8)
}
