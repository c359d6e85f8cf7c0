use crate::fault::Fault;
use crate::parts::{
    Part, byte_of, calls_of, number_and_text, number_of, part_of, part_with, status_of, unquoted,
};
use crate::record::{Given, Kind, ROOM, Want};
use eb_names::{Bytes, Name};
use std::alloc::Global;
use std::mem;

/// Which text of a record its lines are.
#[derive(Clone, Copy)]
enum Place<'a> {
    None,
    File(&'a str),
    Output(Kind),
}

/// The record of which the lines come now. One draft serves all records of a file.
#[derive(Drop)]
pub struct Draft<'a> {
    alloc: Global,
    /// How many lines of the file have come.
    pub line: usize,
    /// The names of the records that have begun.
    names: Vec<&'a str>,
    /// The name of this one, empty before the first.
    pub name: &'a str,
    /// What the run is given.
    pub given: Given,
    /// The words behind the program's name, if they were said.
    words: Option<&'a str>,
    /// What is wanted of the output.
    pub wants: Vec<Want<'a>>,
    /// The exit status that is wanted.
    pub status: Option<u8>,
    has_prints: bool,
    is_judged: bool,
    /// The text that was begun last, and its bytes so far.
    place: Place<'a>,
    text: Vec<u8>,
}

impl<'a> Draft<'a> {
    /// What reads a file from its beginning.
    pub fn new(alloc: Global) -> Draft<'a> {
        Draft {
            alloc,
            line: 0,
            names: Vec::new(alloc),
            name: "",
            given: Given::new(alloc),
            words: None,
            wants: Vec::new(alloc),
            status: None,
            has_prints: false,
            is_judged: false,
            place: Place::None,
            text: Vec::new(alloc),
        }
    }

    /// Begins the next record, once the one before was run.
    pub fn begin(&mut self, name: &'a str) -> Result<(), Fault> {
        if name.is_empty() {
            return Err(Fault::NoName);
        }
        if is_among(self.names.as_slice(), name) {
            return Err(Fault::NameTwice);
        }
        self.names.push(name)?;
        self.name = name;
        self.given.room = ROOM;
        self.given.is_slow = false;
        self.words = None;
        self.wants = Vec::new(self.alloc);
        self.status = None;
        self.has_prints = false;
        self.is_judged = false;
        Ok(())
    }

    /// Takes the next line, with its line feed, if it begins no record.
    pub fn take(&mut self, line: &'a str) -> Result<(), Fault> {
        if !line.ends_with('\n') {
            return Err(Fault::NoLineFeed);
        }
        if self.name.is_empty() {
            return if line.starts_with('#') {
                Ok(())
            } else {
                Err(Fault::NoRecord)
            };
        }
        match part_of(line) {
            Some((word, rest)) => self.take_part(part_with(word)?, rest),
            None => self.add_text(line.as_bytes()),
        }
    }

    fn take_part(&mut self, part: Part, rest: &'a str) -> Result<(), Fault> {
        match part {
            Part::Line => self.add_text(unquoted(rest).as_bytes()),
            Part::Repeat => self.add_repeated(rest, b""),
            Part::Lines => self.add_repeated(rest, b"\n"),
            Part::Bytes => self.add_bytes(rest),
            _ => {
                self.end_text()?;
                self.begin_part(part, rest)
            }
        }
    }

    /// Adds to the text.
    fn add_text(&mut self, bytes: &[u8]) -> Result<(), Fault> {
        if matches!(self.place, Place::None) {
            return Err(Fault::NoText);
        }
        self.text.extend_from_slice(bytes)?;
        Ok(())
    }

    /// Adds as many times as the line says what it says, each time with an end.
    fn add_repeated(&mut self, rest: &str, end: &[u8]) -> Result<(), Fault> {
        self.add_text(b"")?;
        let (count, text) = number_and_text(rest)?;
        for _ in 0..count {
            self.add_text(text.as_bytes())?;
            self.add_text(end)?;
        }
        Ok(())
    }

    /// Adds the bytes that are written in hexadecimal digits.
    fn add_bytes(&mut self, digits: &str) -> Result<(), Fault> {
        for pair in digits.split(' ') {
            let byte = byte_of(pair)?;
            self.add_text(&[byte])?;
        }
        Ok(())
    }

    /// Puts the text where it belongs, if one was begun.
    fn end_text(&mut self) -> Result<(), Fault> {
        let text = mem::replace(&mut self.text, Vec::new(self.alloc));
        match self.place {
            Place::File(name) => {
                let name = Name::new(self.alloc, name)?;
                self.given.files.push((name, Bytes::from_vec(text)))?;
            }
            Place::Output(kind) => self.add_want(kind, 0, "", text)?,
            Place::None => {}
        }
        self.place = Place::None;
        Ok(())
    }

    fn add_want(
        &mut self,
        kind: Kind,
        count: usize,
        line: &'a str,
        text: Vec<u8>,
    ) -> Result<(), Fault> {
        self.wants.push(Want {
            kind,
            count,
            line,
            text,
        })?;
        Ok(())
    }

    /// Takes the line that begins a part.
    fn begin_part(&mut self, part: Part, rest: &'a str) -> Result<(), Fault> {
        match part {
            Part::Words | Part::Slowly | Part::Status => self.give_once(part, rest),
            Part::Reads | Part::Writes | Part::Room => self.give(part, rest),
            Part::Starts => self.want(Kind::Starts, 0, unquoted(rest)),
            Part::Judged => {
                self.is_judged = true;
                self.want(Kind::Judged, 0, unquoted(rest))
            }
            Part::Has => {
                let (count, text) = number_and_text(rest)?;
                self.want(Kind::Has, count, text)
            }
            _ => {
                self.place = self.place_of(part, rest)?;
                Ok(())
            }
        }
    }

    /// Takes a line that says what the run is given.
    fn give(&mut self, part: Part, rest: &str) -> Result<(), Fault> {
        match part {
            Part::Reads => self.given.failing_reads = calls_of(self.alloc, rest)?,
            Part::Writes => self.given.failing_writes = calls_of(self.alloc, rest)?,
            _ => self.given.room = number_of(rest)?,
        }
        Ok(())
    }

    /// Takes the words, the status, or that the run is slow. The first two are said once.
    fn give_once(&mut self, part: Part, rest: &'a str) -> Result<(), Fault> {
        match part {
            Part::Words if self.words.is_none() => self.words = Some(rest),
            Part::Status if self.status.is_none() => self.status = Some(status_of(rest)?),
            Part::Slowly if rest.is_empty() => self.given.is_slow = true,
            Part::Slowly => return Err(Fault::BadArgument),
            _ => return Err(Fault::Twice),
        }
        Ok(())
    }

    /// Takes a line that says itself what is wanted of the output.
    fn want(&mut self, kind: Kind, count: usize, line: &'a str) -> Result<(), Fault> {
        if line.is_empty() {
            return Err(Fault::BadArgument);
        }
        self.add_want(kind, count, line, Vec::new(self.alloc))
    }

    /// The place of a text that begins with this line.
    fn place_of(&mut self, part: Part, rest: &'a str) -> Result<Place<'a>, Fault> {
        match part {
            Part::File => Ok(Place::File(unquoted(rest))),
            _ if !rest.is_empty() => Err(Fault::BadArgument),
            Part::Model => self.only_file("m"),
            Part::Tree => self.only_file("t"),
            Part::Begins => Ok(Place::Output(Kind::Begins)),
            Part::Ends => Ok(Place::Output(Kind::Ends)),
            Part::Or if !self.has_prints => Err(Fault::NoPrints),
            Part::Or => Ok(Place::Output(Kind::Or)),
            _ if self.has_prints => Err(Fault::Twice),
            _ => {
                self.has_prints = true;
                Ok(Place::Output(Kind::Prints))
            }
        }
    }

    /// The place of the text of a file that stands once.
    fn only_file(&self, name: &'static str) -> Result<Place<'a>, Fault> {
        if self.given.has_file(name) {
            return Err(Fault::Twice);
        }
        Ok(Place::File(name))
    }

    /// Ends the record, if one has begun: says whether.
    pub fn end(&mut self) -> Result<bool, Fault> {
        if self.name.is_empty() {
            return Ok(false);
        }
        self.end_text()?;
        if self.status.is_none() {
            return Err(Fault::NoStatus);
        }
        if self.is_judged && !self.given.has_file("m") {
            return Err(Fault::NoModel);
        }
        Ok(true)
    }

    /// The words behind the program's name: the usual ones, where none were said.
    pub fn words(&self) -> &'a str {
        match self.words {
            Some(words) => words,
            None if self.given.has_file("t") => "check m t",
            None => "solve m",
        }
    }
}

fn is_among(names: &[&str], wanted: &str) -> bool {
    for name in names {
        if *name == wanted {
            return true;
        }
    }
    false
}
