use crate::paced::{PacedSink, PacedSource};
use crate::parts::words_of;
use cbc_outside::{Calls, MemSink, MemSource, NamedFiles};
use cbc_top::{Status, run};
use eb_names::{Bytes, Name};
use std::alloc::{AllocError, Global};

/// How many bytes a verdict has at most.
const VERDICT_ROOM: usize = 100;

/// How the run of these words ends.
pub fn status_of_run(
    alloc: Global,
    words: &str,
    src: &mut PacedSource,
    out: &mut PacedSink,
) -> Result<Status, AllocError> {
    let words = words_of(alloc, words)?;
    Ok(run(alloc, words.as_slice(), src, out))
}

/// An empty room.
pub fn empty_sink(
    alloc: Global,
    room: usize,
    failing: Calls,
    is_slow: bool,
) -> Result<PacedSink, AllocError> {
    let inner = MemSink::new(alloc, room, failing)?;
    Ok(PacedSink { inner, is_slow })
}

/// Adds a file with this text.
pub fn add_file(
    alloc: Global,
    files: &mut NamedFiles,
    name: &str,
    text: &[u8],
) -> Result<(), AllocError> {
    let name = Name::new(alloc, name)?;
    let text = Bytes::from_slice(alloc, text)?;
    files.push((name, text))
}

/// The files of a model and a tree.
fn model_and_tree(alloc: Global, model: &[u8], tree: &[u8]) -> Result<PacedSource, AllocError> {
    let mut files = NamedFiles::new(alloc);
    add_file(alloc, &mut files, "m", model)?;
    add_file(alloc, &mut files, "t", tree)?;
    Ok(PacedSource {
        inner: MemSource::new(files, Calls::new(alloc)),
        is_slow: false,
    })
}

/// An empty room for a verdict.
pub fn verdict_sink(alloc: Global) -> Result<PacedSink, AllocError> {
    empty_sink(alloc, VERDICT_ROOM, Calls::new(alloc), false)
}

/// How `check` ends on a model and a tree.
pub fn status_of_check(
    alloc: Global,
    model: &[u8],
    tree: &[u8],
    out: &mut PacedSink,
) -> Result<Status, AllocError> {
    let mut src = model_and_tree(alloc, model, tree)?;
    status_of_run(alloc, "check m t", &mut src, out)
}
