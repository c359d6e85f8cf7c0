ghost use Rattle.std.specs.Prelude.{◌≡◌, ◌⊎◌, ℕ, true, ◌<◌, ◌≤◌, ◌^◌, ◌++◌, ◌∷◌, [], length, IfOk};
ghost use Rattle.cbc_words.specs.Words.{command_of};
ghost use Rattle.cbc_top.specs.Opening.{HasFailed};
ghost use Rattle.model_text.specs.Asking.{IsLawful};
ghost use Rattle.cbc_top.specs.Run as spec;
ghost use Rattle.cbc_top.specs.steps.Due as due;
ghost use Rattle.cbc_top.specs.steps.Reads as reads;

use crate::model_files::joined;
use crate::stop::Stop;
use cbc_answers::{Status, checked, solved};
use cbc_outside::{ReadStop, Sink, Source, read_all, write_all};
use cbc_words::{Action, WordsFault, command};
use eb_names::{Bytes, Name, Names};
use model_text::{Asked, Refusal, Wanted, asked_text};
use std::alloc::{AllocError, Global};

/// A tree file has no more bytes.
const LONGEST_TREE: u64 = 16 << 20;

/// What is written, and the status after it.
type Due = (Bytes, Status);

/// What the files of a model ask, by so many queries.
fn model_in<S: Source>(
    alloc: Global,
    src: &mut S,
    names: &[Name],
    wanted: Wanted,
) -> Result<Asked, Stop>
    ensures same { S.files src.new ≡ S.files src.old }
    ensures read { reads.ReadsModel wanted names.now (S.files src.old) (S.opened src.old) (S.opened src.new) (S.fault_name src.new) result }
    ensures lawful { IfOk result IsLawful }
    ensures fault { reads.IsFaultOf result (S.faults src.old) (S.faults src.new) }
{
    match joined(alloc, src, names) {
        Ok(text) => Ok(asked_text(alloc, text.as_slice(), wanted)?),
        Err(ReadStop::TooLong) => Err(Stop::Refused(Refusal::TooLong)),
        Err(ReadStop::Failed) => Err(Stop::ReadFault),
        Err(ReadStop::Memory) => Err(Stop::Memory),
    }
}

/// The text of a tree's file, which is opened once.
fn tree_in<S: Source>(alloc: Global, src: &mut S, file: Name) -> Result<Bytes, Stop>
    ensures same { S.files src.new ≡ S.files src.old }
    ensures tried { S.opened src.new ≡ S.opened src.old ++ file ∷ [] }
    ensures read { reads.ReadsTree (S.files src.old) file (S.fault_name src.new) result }
    ensures fault { reads.IsFaultOf result (S.faults src.old) (S.faults src.new) }
{
    match read_all(alloc, src, file, LONGEST_TREE) {
        Ok(text) => Ok(text),
        Err(ReadStop::TooLong) => Err(Stop::Refused(Refusal::NotYet)),
        Err(ReadStop::Failed) => Err(Stop::ReadFault),
        Err(ReadStop::Memory) => Err(Stop::Memory),
    }
}

/// What is due at `solve FILE..`.
fn due_at_solve<S: Source>(
    alloc: Global,
    src: &mut S,
    names: Names,
    budget: u64,
) -> Result<Due, Stop>
    ensures same { S.files src.new ≡ S.files src.old }
    ensures lawful { due.DueAt (spec.OpensNext (Action.Solve names)) (spec.Completes (Action.Solve names) budget) (S.files src.old) (S.opened src.old) (S.opened src.new) (S.fault_name src.new) result }
    ensures answered { IfOk result (λ d. spec.IsAnswered d.1) }
    ensures fault { reads.IsFaultOf result (S.faults src.old) (S.faults src.new) }
{
    let asked = model_in(alloc, src, names.as_slice(), Wanted::Any)?;
    let due = solved(alloc, &asked, budget)?;
    Ok(due)
}

/// What is due at `check FILE.. TREE`.
fn due_at_check<S: Source>(
    alloc: Global,
    src: &mut S,
    names: Names,
    tree: Name,
) -> Result<Due, Stop>
    ensures same { S.files src.new ≡ S.files src.old }
    ensures lawful { (budget : ℕ) → due.DueAt (spec.OpensNext (Action.Check names tree)) (spec.Completes (Action.Check names tree) budget) (S.files src.old) (S.opened src.old) (S.opened src.new) (S.fault_name src.new) result }
    ensures answered { IfOk result (λ d. spec.IsAnswered d.1) }
    ensures fault { reads.IsFaultOf result (S.faults src.old) (S.faults src.new) }
{
    let asked = model_in(alloc, src, names.as_slice(), Wanted::One)?;
    let tree = tree_in(alloc, src, tree)?;
    let due = checked(alloc, &asked, tree.as_slice())?;
    Ok(due)
}

/// What is due at these words.
fn due_at<S: Source>(alloc: Global, words: &[Name], src: &mut S) -> Result<Due, Stop>
    ensures same { S.files src.new ≡ S.files src.old }
    ensures lawful { due.DueAt (spec.IsNext (command_of words.now)) (spec.Ends (command_of words.now)) (S.files src.old) (S.opened src.old) (S.opened src.new) (S.fault_name src.new) result }
    ensures answered { IfOk result (λ d. spec.IsAnswered d.1) }
    ensures fault { reads.IsFaultOf result (S.faults src.old) (S.faults src.new) }
{
    let command = match command(alloc, words) {
        Ok(command) => command,
        Err(WordsFault::Words) => return Err(Stop::Refused(Refusal::Words)),
        Err(WordsFault::Memory) => return Err(Stop::Memory),
    };
    let budget = command.budget;
    match command.action {
        Action::Solve { files } => due_at_solve(alloc, src, files, budget),
        Action::Check { files, tree } => due_at_check(alloc, src, files, tree),
        Action::Cover { .. } | Action::Replay { .. } | Action::Gen { .. } => {
            Err(Stop::Refused(Refusal::NotYet))
        }
    }
}

/// Writes the bytes and ends with the status, or at a fault.
fn say<K: Sink>(out: &mut K, bytes: &[u8], status: Status) -> Status
    requires { spec.IsAnswered status }
    ensures { due.Says status bytes.now (K.taken out.old) (K.taken out.new) (K.faults out.old) (K.faults out.new) result }
{
    match write_all(out, bytes) {
        Ok(()) => status,
        Err(_) => Status::WriteFault,
    }
}

/// Carries out the command that the words say, over the source's files, and writes to the sink.
///
/// `solve FILE..` answers the queries of a model, each with the line `query axioms`, a line `note scoped LABEL IDENT` for each bound
/// identifier that takes integers of the scope, and one of three answers: `found` with values of the constants that make each axiom
/// well-defined and true; `refuted` with a tree that shows that there are none in the scope; or `undecided` with a tree that leaves
/// boxes open, after as many splits as the budget allows. A text without queries asks nothing, and nothing is written.
/// `check FILE.. TREE` judges a tree, whoever wrote it, by the model and its one query: `accepted`, `partial` with the number of
/// open boxes, or `refused` with the first line at fault and its cause. Anything else is refused with one line. Of several causes
/// the one that stands first here counts:
/// `E14` the words; `E13` model files that are too long; `E1` a model that isn't UTF-8; `E2` with the first byte at which no token
/// begins; `E4` a formula that is higher than 200; `E3` with the place of a token, or the end, where the tokens are no text; `E12`
/// with the place of the first word that isn't supported; `E6` with the first name that is declared a second time; `E5`
/// with the first name that is used without a declaration; `E7` where there are no types for all identifiers, `E8` where
/// there are several; `E9` with the place of the first set that is no value, such as `NAT`, where only a value may stand; `E10` with
/// the first limit that is passed; `E11` where there are more than 1,000 queries, or for `check` not just one; `E15` what isn't
/// answered today: a machine, a query that isn't `axioms`, a constant that is no integer, other actions, and a tree file that is too
/// long.
///
/// The model's files are opened in the order of the words, each once, up to the first that can't be read or with which they
/// are too long; the tree's file is opened once, and only where the model has one query, which is answered today. No other file
/// is opened.
/// `ReadFault`: the file that was opened last could not be read; the source has its name, and nothing is written. `WriteFault`: the
/// output took not all that was due. `Memory`: memory ran out. In each other status no call of the source or the output failed.
pub fn run<S: Source, K: Sink>(alloc: Global, words: &[Name], src: &mut S, out: &mut K) -> Status
    ensures same { S.files src.new ≡ S.files src.old }
    // A call of the source failed and none of the sink's; or one of the sink's and none of the source's; or none.
    ensures faults { spec.AreFaultsOf result (S.faults src.old) (S.faults src.new) (K.faults out.old) (K.faults out.new) }
    // Where neither a fault nor want of memory ended it, what it wrote and its status are lawful by what it read.
    ensures answers { spec.IsAnswered result → spec.Ran (command_of words.now) (S.files src.old) (S.opened src.old) (S.opened src.new)
        (K.taken out.old) (K.taken out.new) (λ contents bytes. spec.Ends (command_of words.now) contents bytes result) }
    // A read fault comes at the file that was next, before any output.
    ensures read_fault { result ≡ Status.ReadFault → HasFailed (spec.IsNext (command_of words.now)) (S.files src.old) (S.opened src.old) (S.opened src.new) (S.fault_name src.new) }
    ensures read_nothing { result ≡ Status.ReadFault → K.taken out.new ≡ K.taken out.old }
    // Else what it wrote is nothing, or a proper front of something lawful by what it read.
    ensures front { (result ≡ Status.WriteFault) ⊎ (result ≡ Status.Memory) → spec.Ran (command_of words.now) (S.files src.old) (S.opened src.old) (S.opened src.new)
        (K.taken out.old) (K.taken out.new) (spec.Begins (command_of words.now)) }
{
    match due_at(alloc, words, src) {
        Ok((bytes, status)) => say(out, bytes.as_slice(), status),
        Err(Stop::Refused(refusal)) => match refusal.line(alloc) {
            Ok(line) => say(out, line.as_slice(), Status::Refused),
            Err(_) => Status::Memory,
        },
        Err(Stop::ReadFault) => Status::ReadFault,
        Err(Stop::Memory) => Status::Memory,
    }
}
