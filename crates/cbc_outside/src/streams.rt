ghost use Rattle.std.specs.Prelude.{◌≡◌, ◌≢◌, ◌≤◌, ◌<◌, ◌++◌, ◌∷◌, [], ℕ, List, Some, Err, length, take, drop, IfOk, OnOk, OnErr};
ghost use Rattle.std.specs.Io.KnownBytes.{Appends};
ghost use Rattle.cbc_outside.specs.Outside.{HasCause, Rose, IsWhole, AppendsFront};
ghost use Rattle.cbc_outside.specs.declared.streams.ReadStop.TheVariants.{Memory};

use crate::outside::{Failed, Sink, Source};
use eb_names::{Bytes, Name};
use std::alloc::{AllocError, Global};
use thiserror::Error;

/// Why a file's bytes were not read.
#[derive(Clone, Copy, Debug, PartialEq, Eq, Error)]
pub enum ReadStop {
    /// The source failed at this file.
    #[error("the file could not be read")]
    Failed,
    /// The file has more bytes than the limit.
    #[error("the file is too long")]
    TooLong,
    /// Memory ran out.
    #[error("memory ran out")]
    Memory,
}

impl From<AllocError> for ReadStop {
    ghost from_gives = { λ _ e. e ≡ Memory };

    fn from(_: AllocError) -> ReadStop {
        ReadStop::Memory
    }
}

/// How many bytes are asked for at a time.
const PIECE: usize = 4096;

/// The bytes of the file with this name, if they are no more than `limit`, which is in bytes. The file is
/// opened once, and read from its start to its end or to the first piece that passes the limit. No other is opened.
///
/// `Failed`: the source failed to open or to read this file; the count of faults rose, and the fault name is
/// this name. `TooLong`: no call failed, and the file has more than `limit` bytes. `Memory`: no call failed, the
/// file is there, and memory ran out. Where no call failed and memory was there, the file's bytes thus determine the answer.
/// The source can be used again after each answer.
pub fn read_all<S: Source>(
    alloc: Global,
    src: &mut S,
    name: Name,
    limit: u64,
) -> Result<Bytes, ReadStop>
    ensures same { S.files src.new ≡ S.files src.old }
    ensures tried { S.opened src.new ≡ S.opened src.old ++ name ∷ [] }
    ensures whole { IfOk result (IsWhole (S.files src.old) name) }
    ensures within { IfOk result (λ bytes. length bytes ≤ limit) }
    ensures too_long { result ≡ Err ReadStop.TooLong → (bytes : List ℕ) × IsWhole (S.files src.old) name bytes × (limit < length bytes) }
    ensures there { result ≡ Err ReadStop.Memory → (bytes : List ℕ) × IsWhole (S.files src.old) name bytes }

    ensures failed { result ≡ Err ReadStop.Failed → Rose (S.faults src.old) (S.faults src.new) }
    ensures blames { result ≡ Err ReadStop.Failed → S.fault_name src.new ≡ Some name }
    ensures no_fault { result ≢ Err ReadStop.Failed → S.faults src.new ≡ S.faults src.old }
    ensures no_blame { result ≢ Err ReadStop.Failed → S.fault_name src.new ≡ S.fault_name src.old }
    ensures later { S.faults src.old ≤ S.faults src.new }
{
    if src.open(name).is_err() {
        return Err(ReadStop::Failed);
    }
    let mut bytes = Vec::new(alloc);
    let mut piece = [0u8; PIECE];
    loop {
        let Ok(count) = src.read(&mut piece) else {
            return Err(ReadStop::Failed);
        };
        if count == 0 {
            return Ok(Bytes::from_vec(bytes));
        }
        if (bytes.len() + count) as u64 > limit {
            return Err(ReadStop::TooLong);
        }
        bytes.extend_from_slice(&piece[..count])?;
    }
}

/// Writes the whole piece, in as many writes as the sink needs. Of an empty piece it writes nothing.
///
/// The only error is `Failed`: a write failed, so the count of faults rose, and the sink has taken a front of
/// the piece that isn't all of it.
pub fn write_all<K: Sink>(out: &mut K, piece: &[u8]) -> Result<(), Failed>
    ensures all { OnOk result (Appends (K.taken out.old) (K.taken out.new) piece.now) }
    ensures front { OnErr result (AppendsFront (K.taken out.old) (K.taken out.new) piece.now) }
    ensures cause { HasCause (K.faults out.old) (K.faults out.new) result }
{
    let mut at = 0;
    while at < piece.len() {
        at += out.write(after(piece, at))?;
    }
    Ok(())
}

/// The bytes from a place on.
fn after(bytes: &[u8], at: usize) -> &[u8]
    requires { at ≤ length bytes.now }
    ensures { result.now ≡ drop at bytes.now }
{
    &bytes[at..]
}
