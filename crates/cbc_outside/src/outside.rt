ghost use Rattle.std.specs.Prelude.{◌≡◌, ℕ, ◌≤◌, ◌<◌, List, [], ◌∷◌, ◌++◌, Option, Some, None, Ok, length, take, IfOk, IfNone, OnOk, OnErr};
ghost use Rattle.std.specs.Io.{ReadsAtMost};
ghost use Rattle.std.specs.Io.KnownBytes.{Consumes, IsAtEnd, Appends, Keeps};
ghost use Rattle.cbc_outside.specs.Outside.{Opens, HasCause, Blames};

use eb_names::Name;
use thiserror::Error;

/// A call of a source or a sink that did not do its work.
#[derive(Clone, Copy, Debug, PartialEq, Eq, Error)]
#[error("a read or a write failed")]
pub struct Failed;

/// Files that are opened and read one at a time.
///
/// The bytes may stay untold, as those of the system's files: then the clauses on bytes claim nothing, and the
/// clauses on faults hold all the same.
pub trait Source {
    /// The bytes under each name, where they are told. Of a repeated name the first pair counts.
    ghost files: { Self → Option (List (List ℕ × List ℕ)) };

    /// The names that were given to `open`, oldest first, those of calls that failed among them.
    ghost opened: { Self → List (List ℕ) };

    /// The open file's name. No file is open at first, nor after a call that failed.
    ghost open_name: { Self → Option (List ℕ) };

    /// The bytes of the open file that are left to read, where they are told.
    ghost rest: { Self → Option (List ℕ) };

    /// How many calls have failed. The count never falls; it stands still at the last value of a `u64`.
    ghost faults: { Self → ℕ };

    /// The name of the file at which a call failed last, none at first.
    ghost fault_name: { Self → Option (List ℕ) };

    /// Opens the file with this name at its start, in the place of the one that was open.
    ///
    /// The only error is `Failed`: the file could not be opened, as one that isn't there. Then no file is open,
    /// the count of faults rose, and the fault name is this name.
    fn open(&mut self, name: Name) -> Result<(), Failed>
        ensures same { files self.new ≡ files self.old }
        ensures tried { opened self.new ≡ opened self.old ++ name ∷ [] }
        ensures named { OnOk result (open_name self.new ≡ Some name) }
        ensures whole { OnOk result (Opens (files self.old) name (rest self.new)) }
        ensures closes { OnErr result (open_name self.new ≡ None) }

        ensures cause { HasCause (faults self.old) (faults self.new) result }
        ensures blames { Blames (Some name) (fault_name self.old) (fault_name self.new) result };

    /// Copies the next bytes of the open file to the front of `into`, and answers how many. A slice that isn't
    /// empty gets none only at the end of the file. With no open file the answer is `Ok(0)`.
    ///
    /// The only error is `Failed`: the open file could not be read. Then no file is open, the count of faults
    /// rose, and the fault name is the file's.
    fn read(&mut self, into: &mut [u8]) -> Result<usize, Failed>
        ensures same { files self.new ≡ files self.old }
        ensures tried { opened self.new ≡ opened self.old }
        ensures bound { ReadsAtMost result into.new }
        ensures bytes { IfOk result (λ n. Consumes (rest self.old) (rest self.new) (take n into.new)) }
        ensures end { IfOk result (λ n. n ≡ 0 → 0 < length into.new → IsAtEnd (rest self.new)) }
        ensures stays { OnOk result (open_name self.new ≡ open_name self.old) }
        ensures none_open { IfNone (open_name self.old) (result ≡ Ok 0) }
        ensures closes { OnErr result (open_name self.new ≡ None) }

        ensures cause { HasCause (faults self.old) (faults self.new) result }
        ensures blames { Blames (open_name self.old) (fault_name self.old) (fault_name self.new) result };
}

/// What takes bytes, piece by piece. It may leave untold which it took.
pub trait Sink {
    /// The bytes taken, in the order of the writes, where they are told.
    ghost taken: { Self → Option (List ℕ) };

    /// How many calls have failed. The count never falls; it stands still at the last value of a `u64`.
    ghost faults: { Self → ℕ };

    /// Takes bytes from the front of the piece, at least one if it has one, and answers how many. Of an empty
    /// piece the answer is `Ok(0)`.
    ///
    /// The only error is `Failed`: nothing was taken, and the count of faults rose.
    fn write(&mut self, piece: &[u8]) -> Result<usize, Failed>
        ensures some { IfOk result (λ n. 0 < length piece.now → 0 < n) }
        ensures bound { IfOk result (λ n. n ≤ length piece.now) }
        ensures bytes { IfOk result (λ n. Appends (taken self.old) (taken self.new) (take n piece.now)) }
        ensures nothing { OnErr result (Keeps (taken self.old) (taken self.new)) }
        ensures empty { length piece.now ≡ 0 → result ≡ Ok 0 }

        ensures cause { HasCause (faults self.old) (faults self.new) result };
}
