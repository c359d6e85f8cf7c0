ghost use Rattle.std.specs.Prelude.{Some};

use cbc_outside::{Failed, MemSink, MemSource, Sink, Source};
use eb_names::Name;

/// Files that are read one byte a call, where they are slow.
#[derive(Drop)]
pub struct PacedSource {
    /// The files.
    pub inner: MemSource,
    /// Whether they are slow.
    pub is_slow: bool,
}

impl Source for PacedSource {
    ghost files = { λ s. Some s.inner.files };

    ghost opened = { λ s. s.inner.opened };

    ghost open_name = { λ s. s.inner.open_name };

    ghost rest = { λ s. Some s.inner.rest };

    ghost faults = { λ s. s.inner.faults };

    ghost fault_name = { λ s. s.inner.fault_name };

    fn open(&mut self, name: Name) -> Result<(), Failed> {
        self.inner.open(name)
    }

    fn read(&mut self, into: &mut [u8]) -> Result<usize, Failed> {
        match into {
            [first, ..] if self.is_slow => {
                let mut byte = [*first];
                let count = self.inner.read(&mut byte)?;
                *first = byte[0];
                Ok(count)
            }
            _ => self.inner.read(into),
        }
    }
}

/// A room for bytes that takes one a call, where it is slow.
#[derive(Drop)]
pub struct PacedSink {
    /// The room.
    pub inner: MemSink,
    /// Whether it is slow.
    pub is_slow: bool,
}

impl Sink for PacedSink {
    ghost taken = { λ s. Some s.inner.taken };

    ghost faults = { λ s. s.inner.faults };

    fn write(&mut self, piece: &[u8]) -> Result<usize, Failed> {
        let most = if self.is_slow { 1 } else { piece.len() };
        self.inner.write(&piece[..piece.len().min(most)])
    }
}
