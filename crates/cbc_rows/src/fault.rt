use std::alloc::{AllocError, AllocFailed};
use std::io;

/// Why a file of records can't be read on.
#[derive(Clone, Copy)]
pub enum Fault {
    /// Memory ran out.
    Memory,
    /// A line can't be printed.
    NotPrinted,
    /// The file isn't UTF-8.
    NotUtf8,
    /// A line has no line feed, which only the last one can.
    NoLineFeed,
    /// A line before the first record that doesn't begin with `#`.
    NoRecord,
    /// A record without a name.
    NoName,
    /// A record with the name of an earlier one in this file.
    NameTwice,
    /// A line of a text where no text has begun.
    NoText,
    /// A line `-- ` with another word behind it.
    UnknownPart,
    /// A part that stands twice in a record.
    Twice,
    /// `or` where no `prints` stands before it.
    NoPrints,
    /// What stands behind a part isn't what the part takes.
    BadArgument,
    /// A record that says no status.
    NoStatus,
    /// A record with `judged` that has no model.
    NoModel,
}

impl Fault {
    /// The words for it.
    pub fn told(self) -> &'static str {
        match self {
            Fault::Memory => "memory ran out",
            Fault::NotPrinted => "a line can not be printed",
            Fault::NotUtf8 => "the file is not UTF-8",
            Fault::NoLineFeed => "the last line has no line feed",
            Fault::NoRecord => "no record has begun",
            Fault::NoName => "the record has no name",
            Fault::NameTwice => "an earlier record has this name",
            Fault::NoText => "no text has begun",
            Fault::UnknownPart => "no such part of a record",
            Fault::Twice => "this part stands twice",
            Fault::NoPrints => "`or` without `prints` before it",
            Fault::BadArgument => "this part takes something else",
            Fault::NoStatus => "the record before has no status",
            Fault::NoModel => "the record before has no model to judge by",
        }
    }
}

impl From<AllocError> for Fault {
    fn from(_: AllocError) -> Fault {
        Fault::Memory
    }
}

impl<T: Drop> From<AllocFailed<T>> for Fault {
    fn from(_: AllocFailed<T>) -> Fault {
        Fault::Memory
    }
}

impl From<io::Error> for Fault {
    fn from(_: io::Error) -> Fault {
        Fault::NotPrinted
    }
}
