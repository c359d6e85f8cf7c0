use crate::draft::Draft;
use crate::paced::PacedSink;
use crate::record::{Kind, Want};
use crate::running::{status_of_check, status_of_run, verdict_sink};
use cbc_top::Status;
use std::alloc::{AllocError, Global};

/// How many bytes of an output are shown at most.
const SHOWN: usize = 200;

/// Adds to a text what came in the place of what the record wants, as its own lines would say it.
pub fn add_difference(
    alloc: Global,
    record: &mut Draft<'_>,
    others: &mut String,
) -> Result<(), AllocError> {
    let mut out = record.given.sink(alloc)?;
    add_difference_in(alloc, record, &mut out, others)
}

/// The same, with the room for the output.
fn add_difference_in(
    alloc: Global,
    record: &mut Draft<'_>,
    out: &mut PacedSink,
    others: &mut String,
) -> Result<(), AllocError> {
    let model = record.given.model(alloc)?;
    let status = status_of_record(alloc, record, out)? as u8;
    let wants = record.wants.as_slice();
    add_other_output(alloc, wants, out.inner.taken(), model.as_slice(), others)?;
    if record.status != Some(status) {
        add_count(alloc, others, "status", status as usize)?;
    }
    Ok(())
}

/// How the run of a record ends.
fn status_of_record(
    alloc: Global,
    record: &mut Draft<'_>,
    out: &mut PacedSink,
) -> Result<Status, AllocError> {
    // The usual words depend on the files, which the source takes.
    let words = record.words();
    let mut src = record.given.source(alloc);
    status_of_run(alloc, words, &mut src, out)
}

/// Adds what the output has in the place of what is wanted of it.
fn add_other_output(
    alloc: Global,
    wants: &[Want<'_>],
    output: &[u8],
    model: &[u8],
    others: &mut String,
) -> Result<(), AllocError> {
    for want in wants {
        match want.kind {
            Kind::Has => add_other_count(alloc, want, output, others)?,
            Kind::Judged => add_other_verdict(alloc, want.line, output, model, others)?,
            _ => add_other_part(alloc, want, wants, output, others)?,
        }
    }
    Ok(())
}

/// Adds the part of the output that isn't as it is wanted.
fn add_other_part(
    alloc: Global,
    want: &Want<'_>,
    wants: &[Want<'_>],
    output: &[u8],
    others: &mut String,
) -> Result<(), AllocError> {
    let text = want.text.as_slice();
    let (part, is_met) = match want.kind {
        Kind::Prints => ("prints", is_printed(wants, output)),
        Kind::Begins => ("begins", output.starts_with(text)),
        Kind::Ends => ("ends", has_end(output, text)),
        Kind::Starts => ("starts", has_start(output, want.line.as_bytes())),
        Kind::Or | Kind::Has | Kind::Judged => ("", true),
    };
    if is_met {
        return Ok(());
    }
    let shown = if part == "ends" {
        back(output)
    } else {
        front(output)
    };
    add_shown(alloc, others, part, shown)
}

/// Adds how many lines begin so, where these aren't as many as are wanted.
fn add_other_count(
    alloc: Global,
    want: &Want<'_>,
    output: &[u8],
    others: &mut String,
) -> Result<(), AllocError> {
    let count = lines_with(output, want.line.as_bytes());
    if count != want.count {
        add_count(alloc, others, "has", count)?;
        others.push_str(" ")?;
        others.push_str(want.line)?;
    }
    Ok(())
}

/// Adds the verdict on the output, where it isn't the one that is wanted.
fn add_other_verdict(
    alloc: Global,
    wanted: &str,
    output: &[u8],
    model: &[u8],
    others: &mut String,
) -> Result<(), AllocError> {
    let mut out = verdict_sink(alloc)?;
    add_verdict_in(alloc, wanted, output, model, &mut out, others)
}

/// The same, with the room for the verdict.
fn add_verdict_in(
    alloc: Global,
    wanted: &str,
    output: &[u8],
    model: &[u8],
    out: &mut PacedSink,
    others: &mut String,
) -> Result<(), AllocError> {
    let _ = status_of_check(alloc, model, output, out)?;
    let came = out.inner.taken();
    if is_wanted_verdict(alloc, wanted, lines_with(output, b"o"), came)? {
        return Ok(());
    }
    add_shown(alloc, others, "judged", front(came))
}

/// Whether this verdict is wanted: `partial` stands for the number of boxes that the output leaves open, at least one.
fn is_wanted_verdict(
    alloc: Global,
    wanted: &str,
    open: usize,
    came: &[u8],
) -> Result<bool, AllocError> {
    let Some(came) = came.strip_suffix(b"\n") else {
        return Ok(false);
    };
    if wanted != "partial" || open == 0 {
        return Ok(came == wanted.as_bytes());
    }
    let line = counted(alloc, wanted, open)?;
    Ok(came == line.as_bytes())
}

/// Adds a part of what came, behind the word for it.
fn add_shown(
    alloc: Global,
    others: &mut String,
    part: &str,
    bytes: &[u8],
) -> Result<(), AllocError> {
    let shown = format!(in alloc; "{part} \"{}\"", bytes.escape_ascii())?;
    add_other(others, shown.as_str())
}

/// Adds a number, behind the word for it.
fn add_count(
    alloc: Global,
    others: &mut String,
    part: &str,
    count: usize,
) -> Result<(), AllocError> {
    let shown = counted(alloc, part, count)?;
    add_other(others, shown.as_str())
}

/// A number, behind the word for it.
fn counted(alloc: Global, part: &str, count: usize) -> Result<String, AllocError> {
    format!(in alloc; "{part} {count}")
}

/// Adds one thing that came.
fn add_other(others: &mut String, other: &str) -> Result<(), AllocError> {
    if !others.is_empty() {
        others.push_str(", ")?;
    }
    others.push_str(other)
}

/// The first bytes, as many as are shown.
fn front(bytes: &[u8]) -> &[u8] {
    &bytes[..bytes.len().min(SHOWN)]
}

/// The last bytes, as many as are shown.
fn back(bytes: &[u8]) -> &[u8] {
    &bytes[bytes.len().saturating_sub(SHOWN)..]
}

/// Whether this is one of the outputs that may be printed.
fn is_printed(wants: &[Want<'_>], output: &[u8]) -> bool {
    for want in wants {
        if matches!(want.kind, Kind::Prints | Kind::Or) && want.text.as_slice() == output {
            return true;
        }
    }
    false
}

/// Whether the output has a first line, and that begins so.
fn has_start(output: &[u8], text: &[u8]) -> bool {
    output.contains(&b'\n') && output.starts_with(text)
}

/// Whether these lines are the last ones.
fn has_end(output: &[u8], lines: &[u8]) -> bool {
    match output.strip_suffix(lines) {
        Some(before) => before.is_empty() || before.ends_with(b"\n"),
        None => false,
    }
}

/// How many lines begin so.
fn lines_with(output: &[u8], start: &[u8]) -> usize {
    let mut count = 0usize;
    for line in output.split(|byte| *byte == b'\n') {
        if line.starts_with(start) {
            count = count.saturating_add(1);
        }
    }
    count
}
