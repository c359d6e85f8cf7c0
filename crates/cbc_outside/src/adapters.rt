ghost use Rattle.std.specs.Prelude.{◌≡◌, ◌≤◌, [], None, Some, option_map};
ghost use Rattle.cbc_outside.specs.Outside.{count_up};

use crate::opened_names::OpenedNames;
use crate::outside::{Failed, Sink, Source};
use eb_names::Name;
use std::fs;
use std::io::{Read, Write};
use std::marker::Model;
use std::rt::Files;

/// The files of the system. It tells no file's content beyond what the runtime's open file itself tells, and
/// the system's tells nothing.
#[derive(Drop)]
pub struct FileSource<'a, R: Files> {
    rt: &'a R,
    opened: OpenedNames,
    current: Option<(Name, R::File)>,
    faults: u64,
    fault_name: Option<Name>,
}

impl<'a, R: Files> Model for FileSource<'a, R> {
    ghost use Rattle.std.specs.Prelude.{option_map, option_and_then};
    ghost use Rattle.cbc_outside.specs.Adapters.{FilesState};

    ghost Value = { FilesState };

    ghost view = { λ s. record {
      opened = s.opened.names;
      open_name = option_map (λ file. file.0) s.current;
      rest = option_and_then (λ file. R.File.remaining file.1) s.current;
      faults = s.faults;
      fault_name = s.fault_name;
    } };
}

impl<'a, R: Files> FileSource<'a, R> {
    /// The files that this runtime reaches. No file is open, and no call has failed.
    pub fn new(rt: &'a R) -> FileSource<'a, R>
        ensures { result ≡ record { opened = []; open_name = None; rest = None; faults = 0; fault_name = None } }
    {
        FileSource {
            rt,
            opened: OpenedNames::new(),
            current: None,
            faults: 0,
            fault_name: None,
        }
    }

    /// The name of the file at which a call failed last, none at first.
    pub fn fault_name(&self) -> Option<&Name>
        ensures { option_map (λ name. name.now) result ≡ self.now.fault_name }
    {
        self.fault_name.as_ref()
    }

    /// Counts a fault at this file, and closes what was open.
    fn fail(&mut self, name: Name) -> Failed
        ensures after { self.new ≡ record {
          opened = self.old.opened;
          open_name = None;
          rest = None;
          faults = count_up self.old.faults;
          fault_name = Some name;
        } }
        ensures later { self.old.faults ≤ self.new.faults }
    {
        self.current = None;
        self.faults = self.faults.saturating_add(1);
        self.fault_name = Some(name);
        Failed
    }
}

impl<R: Files> Source for FileSource<'_, R> {
    ghost files = { λ s. None };

    ghost opened = { λ s. s.opened };

    ghost open_name = { λ s. s.open_name };

    ghost rest = { λ s. s.rest };

    ghost faults = { λ s. s.faults };

    ghost fault_name = { λ s. s.fault_name };

    fn open(&mut self, name: Name) -> Result<(), Failed> {
        self.opened = OpenedNames::with(&self.opened, &name);
        match fs::open(self.rt, name.as_str()) {
            Ok(file) => {
                self.current = Some((name, file));
                Ok(())
            }
            Err(_) => Err(self.fail(name)),
        }
    }

    fn read(&mut self, into: &mut [u8]) -> Result<usize, Failed> {
        let Some((name, mut file)) = self.current.take() else {
            return Ok(0);
        };
        match file.read(into) {
            Ok(count) => {
                self.current = Some((name, file));
                Ok(count)
            }
            Err(_) => Err(self.fail(name)),
        }
    }
}

/// A writer, as the standard output. It tells what its writer tells, and the standard output tells nothing.
#[derive(Drop)]
pub struct OutSink<W: Write> {
    out: W,
    faults: u64,
}

impl<W: Write> Model for OutSink<W> {
    ghost use Rattle.cbc_outside.specs.Adapters.{WriterState};

    ghost Value = { WriterState };

    ghost view = { λ s. record { taken = W.contents s.out; faults = s.faults } };
}

impl<W: Write> OutSink<W> {
    /// What writes to `out`. No call has failed.
    pub fn new(out: W) -> OutSink<W>
        ensures { result ≡ record { taken = W.contents out; faults = 0 } }
    {
        OutSink { out, faults: 0 }
    }
}

impl<W: Write> Sink for OutSink<W> {
    ghost taken = { λ s. s.taken };

    ghost faults = { λ s. s.faults };

    /// A write that takes nothing of a piece that isn't empty is a fault too.
    fn write(&mut self, piece: &[u8]) -> Result<usize, Failed> {
        if piece.is_empty() {
            return Ok(0);
        }
        match self.out.write(piece) {
            Ok(count) if 0 < count => Ok(count),
            _ => {
                self.faults = self.faults.saturating_add(1);
                Err(Failed)
            }
        }
    }
}
