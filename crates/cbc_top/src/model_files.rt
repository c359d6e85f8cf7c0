ghost use Rattle.std.specs.Prelude.{◌≡◌, ◌≤◌, ◌+◌, ◌++◌, ◌∷◌, [], length, OnOk};
ghost use Rattle.cbc_top.specs.steps.Reads as spec;

use cbc_outside::{ReadStop, Source, read_all};
use eb_names::{Bytes, Name};
use std::alloc::{AllocError, Global};

/// The bytes of a model are no more, those of all its files together.
const LONGEST_MODEL: u64 = 4 << 20;

/// Adds the line feed before the file at a place, if there is a file before it.
fn push_separator(text: &mut Vec<u8>, place: usize) -> Result<(), AllocError>
    ensures separated { OnOk result (text.new.items ≡ spec.separated place text.old.items) }
    ensures few { OnOk result (length text.new.items ≤ length text.old.items + 1) }
{
    if place == 0 {
        return Ok(());
    }
    text.extend_from_slice(b"\n")
}

/// Opens a file and adds its bytes.
fn push_file<S: Source>(
    alloc: Global,
    src: &mut S,
    text: &mut Vec<u8>,
    name: Name,
) -> Result<(), ReadStop>
    requires short { length text.old.items ≤ 4194305 }
    ensures same { S.files src.new ≡ S.files src.old }
    ensures tried { S.opened src.new ≡ S.opened src.old ++ name ∷ [] }
    ensures added { spec.Adds (S.files src.old) name text.old.items text.new.items (S.fault_name src.new) result }
    ensures fault { spec.IsFaultOfReading result (S.faults src.old) (S.faults src.new) }
{
    let room = LONGEST_MODEL.saturating_sub(text.len() as u64);
    let bytes = read_all(alloc, src, name, room)?;
    text.extend_from_slice(bytes.as_slice())?;
    if text.len() as u64 > LONGEST_MODEL {
        return Err(ReadStop::TooLong);
    }
    Ok(())
}

/// The bytes of a model's files, joined with a line feed between two. The files are opened in their order, each once.
///
/// `Failed`: the source failed at one of these files. `TooLong`: the files up to one of them have more
/// than 4 MiB. The files behind the first of which one of these is true aren't opened. `Memory`: memory
/// ran out.
pub fn joined<S: Source>(alloc: Global, src: &mut S, names: &[Name]) -> Result<Bytes, ReadStop>
    ensures same { S.files src.new ≡ S.files src.old }
    ensures read { spec.Joins names.now (S.files src.old) (S.opened src.old) (S.opened src.new) (S.fault_name src.new) result }
    ensures fault { spec.IsFaultOfReading result (S.faults src.old) (S.faults src.new) }
{
    let mut bytes = Vec::new(alloc);
    for (k, name) in names.iter().enumerate() {
        push_separator(&mut bytes, k)?;
        push_file(alloc, src, &mut bytes, name.copied(alloc)?)?;
    }
    Ok(Bytes::from_vec(bytes))
}
