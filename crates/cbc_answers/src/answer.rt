//! The texts of answers and verdicts. The only error of each is want of memory.
ghost use Rattle.std.specs.Prelude.{◌≡◌, ◌∷◌, ◌++◌, [], ℕ, IfOk, OnOk, map, codes, decimal};
ghost use Rattle.std.specs.List.{flat_map};
ghost use Rattle.cbc_query.specs.Parts.{constants};
ghost use Rattle.cbc_answers.specs.steps.Repeating as repeating;
ghost use Rattle.tree_form.specs.Lines.{line_text};
ghost use Rattle.tree_checker.specs.Texts.{joined};
ghost use Rattle.cbc_answers.specs.Answers as spec;

use cbc_query::Note;
use eb_model::{EbModel, ModelPart};
use eb_names::{Bytes, Name, Names};
use eb_value::{Value, value_text};
use itoa::Buffer;
use numbered_names::Entry;
use std::alloc::{AllocError, Global};
use tree_checker::{Cause, Verdict};
use tree_form::{Line, line_text};

/// Adds bytes and a name behind them.
fn push_name(text: &mut Vec<u8>, front: &[u8], name: &Name) -> Result<(), AllocError>
    ensures { OnOk result (text.new.items ≡ text.old.items ++ (front.now ++ name.now)) }
{
    text.extend_from_slice(front)?;
    text.extend_from_slice(name.as_str().as_bytes())
}

/// Adds the line of a note.
fn push_note(text: &mut Vec<u8>, note: &Note) -> Result<(), AllocError>
    ensures { OnOk result (text.new.items ≡ text.old.items ++ spec.note_text note.now) }
{
    push_name(text, b"note scoped ", &note.label)?;
    push_name(text, b" ", &note.identifier)?;
    text.extend_from_slice(b"\n")
}

/// What stands before an answer: the query and its notes.
pub(crate) fn head(alloc: Global, notes: &[Note]) -> Result<Vec<u8>, AllocError>
    ensures { IfOk result (λ text. text.items ≡ codes "query axioms\n" ++ flat_map spec.note_text notes.now) }
{
    let mut text = Vec::from_slice(alloc, b"query axioms\n")?;
    for note in notes {
        push_note(&mut text, note)?;
    }
    Ok(text)
}

fn push_constant(
    alloc: Global,
    text: &mut Vec<u8>,
    sets: &Names,
    name: &Name,
    value: &Value,
) -> Result<(), AllocError>
    ensures { (number : ℕ) → OnOk result (text.new.items ≡ text.old.items ++ spec.constant_text sets.now (record { name = name.now; number = number }) value.now) }
{
    let value = value_text(alloc, value, sets)?;
    text.extend_from_slice(b"constant ")?;
    text.extend_from_slice(name.as_str().as_bytes())?;
    text.extend_from_slice(b" = ")?;
    text.extend_from_slice(value.as_slice())?;
    text.extend_from_slice(b"\n")
}

/// The constants of a model.
fn constants_of(alloc: Global, model: &EbModel) -> Result<Vec<&Entry>, AllocError>
    ensures { IfOk result (λ xs. map (λ x. x.now) xs.items ≡ constants model.now) }
{
    let mut all = Vec::new(alloc);
    for part in model.parts.as_slice() {
        if let ModelPart::Constant(constant) = part {
            all.push(constant)?;
        }
    }
    Ok(all)
}

/// Adds a line for each constant.
fn push_constants(
    alloc: Global,
    text: &mut Vec<u8>,
    sets: &Names,
    constants: &[&Entry],
    values: &[Value],
) -> Result<(), AllocError>
    ensures { OnOk result (text.new.items ≡ text.old.items ++ spec.constants_text sets.now (map (λ x. x.now) constants.now) values.now) }
{
    for (k, constant) in constants.iter().enumerate() {
        let Some(value) = values.get(k) else {
            break;
        };
        push_constant(alloc, text, sets, &constant.name, value)?;
    }
    Ok(())
}

/// The text of an answer that gives the constants values, behind its head.
pub(crate) fn found(
    alloc: Global,
    head: Vec<u8>,
    sets: &Names,
    model: &EbModel,
    values: &[Value],
) -> Result<Bytes, AllocError>
    ensures { IfOk result (λ text. text ≡ head.items ++ (codes "found\n" ++ (spec.constants_text sets.now (constants model.now) values.now ++ codes "end\n"))) }
{
    let constants = constants_of(alloc, model)?;
    let mut text = head;
    text.extend_from_slice(b"found\n")?;
    push_constants(alloc, &mut text, sets, &constants, values)?;
    text.extend_from_slice(b"end\n")?;
    Ok(Bytes::from_vec(text))
}

/// Adds a line of a tree.
fn push_line(alloc: Global, text: &mut Vec<u8>, line: &Line) -> Result<(), AllocError>
    ensures { OnOk result (text.new.items ≡ text.old.items ++ (line_text line.now ++ (10 ∷ []))) }
{
    let line = line_text(alloc, line)?;
    text.extend_from_slice(line.as_slice())?;
    text.extend_from_slice(b"\n")
}

/// Adds the lines of a tree.
fn push_lines(alloc: Global, text: &mut Vec<u8>, lines: &[Line]) -> Result<(), AllocError>
    ensures { OnOk result (text.new.items ≡ text.old.items ++ joined (map line_text lines.now)) }
{
    for line in lines {
        push_line(alloc, text, line)?;
    }
    Ok(())
}

/// Adds the text of a tree, from its beginning to its end.
fn push_tree(alloc: Global, text: &mut Vec<u8>, lines: &[Line]) -> Result<(), AllocError>
    ensures { OnOk result (text.new.items ≡ text.old.items ++ joined (codes "tree 1" ∷ (map line_text lines.now ++ (codes "end" ∷ [])))) }
{
    text.extend_from_slice(b"tree 1\n")?;
    push_lines(alloc, text, lines)?;
    text.extend_from_slice(b"end\n")
}

/// The text of an answer that refutes, from the lines of its tree, behind its head.
pub(crate) fn refuted(alloc: Global, head: Vec<u8>, lines: &[Line]) -> Result<Bytes, AllocError>
    ensures { IfOk result (λ text. text ≡ head.items ++ (codes "refuted\n" ++ spec.tree_lines_text lines.now)) }
{
    let mut text = head;
    text.extend_from_slice(b"refuted\n")?;
    push_tree(alloc, &mut text, lines)?;
    Ok(Bytes::from_vec(text))
}

/// The text of an answer that is open since the budget was spent, from the lines of its tree, behind its head.
pub(crate) fn undecided(
    alloc: Global,
    head: Vec<u8>,
    budget: u64,
    lines: &[Line],
) -> Result<Bytes, AllocError>
    ensures { IfOk result (λ text. text ≡ head.items ++ (codes "undecided " ++ (decimal budget ++ (codes "\n" ++ spec.tree_lines_text lines.now)))) }
{
    let mut text = head;
    text.extend_from_slice(b"undecided ")?;
    let mut buffer = Buffer::new();
    text.extend_from_slice(buffer.format(budget).as_bytes())?;
    text.extend_from_slice(b"\n")?;
    push_tree(alloc, &mut text, lines)?;
    Ok(Bytes::from_vec(text))
}

/// So many answers, each with this text.
pub(crate) fn repeated(alloc: Global, text: &[u8], times: u64) -> Result<Bytes, AllocError>
    ensures { IfOk result (λ all. all ≡ repeating.repeated times text.now) }
{
    let mut all = Vec::new(alloc);
    for _ in 0..times {
        all.extend_from_slice(text)?;
    }
    Ok(Bytes::from_vec(all))
}

fn cause_text(cause: Cause) -> &'static str
    ensures { result.now ≡ spec.cause_text cause }
{
    match cause {
        Cause::BadLine => "F1 BadLine",
        Cause::NoSuchOccurrence => "F2 NoSuchOccurrence",
        Cause::BadSplit => "F3 BadSplit",
        Cause::NoClash => "F4 NoClash",
        Cause::NotSingle => "F5 NotSingle",
        Cause::EvalTrue => "F6 EvalTrue",
        Cause::Unfinished => "F7 Unfinished",
        Cause::AfterEnd => "F8 AfterEnd",
    }
}

/// The line of a verdict.
pub(crate) fn judged(alloc: Global, verdict: Verdict) -> Result<Bytes, AllocError>
    ensures { IfOk result (λ text. text ≡ spec.verdict_text verdict) }
{
    let mut text = Vec::new(alloc);
    let mut buffer = Buffer::new();
    match verdict {
        Verdict::Accepted => text.extend_from_slice(b"accepted\n")?,
        Verdict::Partial(count) => {
            text.extend_from_slice(b"partial ")?;
            text.extend_from_slice(buffer.format(count).as_bytes())?;
            text.extend_from_slice(b"\n")?;
        }
        Verdict::Refused(line, cause) => {
            text.extend_from_slice(b"refused ")?;
            text.extend_from_slice(buffer.format(line).as_bytes())?;
            text.extend_from_slice(b" ")?;
            text.extend_from_slice(cause_text(cause).as_bytes())?;
            text.extend_from_slice(b"\n")?;
        }
    }
    Ok(Bytes::from_vec(text))
}
