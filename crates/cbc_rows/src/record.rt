use crate::paced::{PacedSink, PacedSource};
use crate::running::empty_sink;
use cbc_outside::{Calls, MemSource, NamedFiles};
use eb_names::Bytes;
use std::alloc::{AllocError, Global};
use std::mem;

/// How many bytes the sink takes where a record doesn't say it.
pub const ROOM: usize = 4 << 20;

/// What a run is given.
#[derive(Drop)]
pub struct Given {
    /// The files that are there.
    pub files: NamedFiles,
    /// The calls of the source that fail.
    pub failing_reads: Calls,
    /// The calls of the sink that fail.
    pub failing_writes: Calls,
    /// How many bytes the sink takes.
    pub room: usize,
    /// Whether the source and the sink take one byte a call.
    pub is_slow: bool,
}

impl Given {
    /// No files, and a room that takes all.
    pub fn new(alloc: Global) -> Given {
        Given {
            files: NamedFiles::new(alloc),
            failing_reads: Calls::new(alloc),
            failing_writes: Calls::new(alloc),
            room: ROOM,
            is_slow: false,
        }
    }

    /// Whether there is a file with this name.
    pub fn has_file(&self, name: &str) -> bool {
        for file in self.files.as_slice() {
            if file.0.as_str() == name {
                return true;
            }
        }
        false
    }

    /// The model's file, of which the tree of the output is judged.
    pub fn model(&self, alloc: Global) -> Result<Bytes, AllocError> {
        for (name, text) in self.files.as_slice() {
            if name.as_str() == "m" {
                return Bytes::from_slice(alloc, text.as_slice());
            }
        }
        Ok(Bytes::new(alloc))
    }

    /// The source of the run, which takes the files.
    pub fn source(&mut self, alloc: Global) -> PacedSource {
        let files = mem::replace(&mut self.files, NamedFiles::new(alloc));
        let failing = mem::replace(&mut self.failing_reads, Calls::new(alloc));
        PacedSource {
            inner: MemSource::new(files, failing),
            is_slow: self.is_slow,
        }
    }

    /// The sink of the run.
    pub fn sink(&mut self, alloc: Global) -> Result<PacedSink, AllocError> {
        let failing = mem::replace(&mut self.failing_writes, Calls::new(alloc));
        empty_sink(alloc, self.room, failing, self.is_slow)
    }
}

/// What a part says of the output.
#[derive(Clone, Copy)]
pub enum Kind {
    /// It is this text, or one of those that follow with `Or`.
    Prints,
    /// It may be this text too.
    Or,
    /// It begins with these lines.
    Begins,
    /// It ends with these lines.
    Ends,
    /// Its first line begins so.
    Starts,
    /// So many of its lines begin so.
    Has,
    /// It is a tree with this verdict.
    Judged,
}

/// One thing that is wanted of the output of a run.
#[derive(Drop)]
pub struct Want<'a> {
    /// What is wanted.
    pub kind: Kind,
    /// How many lines, of `Has`.
    pub count: usize,
    /// What stands in the line itself.
    pub line: &'a str,
    /// The text that follows.
    pub text: Vec<u8>,
}
