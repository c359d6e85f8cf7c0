//! The answers to what a text asks, and the verdict on a tree for it.
ghost use Rattle.std.specs.Prelude.{◌≡◌, ◌≤◌, Some, length, IfOk};
ghost use Rattle.model_text.specs.Asking.{IsLawful};
ghost use Rattle.cbc_answers.specs.Answers as spec;

use crate::answer::{found, head, judged, refuted, repeated, undecided};
use crate::status::Status;
use branch_search::{Answer, search};
use cbc_query::{axioms_notes, carriers};
use eb_names::Bytes;
use eb_term::Problem;
use model_text::Asked;
use std::alloc::{AllocError, Global};
use tree_checker::{Verdict, check_text};
use witness_laws::solutions_are_witnesses;

/// The answer to a query, and the status after it.
fn answered(
    alloc: Global,
    asked: &Asked,
    problem: &Problem,
    budget: u64,
) -> Result<(Bytes, Status), AllocError>
    requires lawful { IsLawful asked.now }
    requires problem { asked.now.problem ≡ Some problem.now }
    requires same { problem.now ≡ spec.problem_of asked.now }
    ensures { IfOk result (λ d. spec.IsAnswer asked.now budget d.0 d.1) }
{
    solutions_are_witnesses();
    let notes = axioms_notes(alloc, &asked.scope, &asked.model, &asked.types)?;
    let head = head(alloc, notes.as_slice())?;
    match search(alloc, problem, &asked.scope, budget)? {
        Answer::Found(values) => {
            let sets = carriers(alloc, &asked.model)?;
            let bytes = found(alloc, head, &sets, &asked.model, values.as_slice())?;
            Ok((bytes, Status::Decided))
        }
        Answer::Refuted(lines) => {
            let bytes = refuted(alloc, head, lines.as_slice())?;
            Ok((bytes, Status::Decided))
        }
        Answer::Undecided(lines) => {
            let bytes = undecided(alloc, head, budget, lines.as_slice())?;
            Ok((bytes, Status::Undecided))
        }
    }
}

/// The answers to the queries of a text, one behind the other, and the status after them. Each is a witness; a refutation in the
/// scope; or a tree that leaves boxes open since it has as many splits as the budget allows. All queries ask the same, so
/// they have the same answer. The only error is want of memory.
pub fn solved(alloc: Global, asked: &Asked, budget: u64) -> Result<(Bytes, Status), AllocError>
    requires { IsLawful asked.now }
    ensures { IfOk result (λ d. spec.AreAnswers asked.now budget asked.now.times d.0 d.1) }
{
    match &asked.problem {
        Some(problem) => {
            let (bytes, status) = answered(alloc, asked, problem, budget)?;
            let all = repeated(alloc, bytes.as_slice(), asked.times)?;
            Ok((all, status))
        }
        None => Ok((Bytes::new(alloc), Status::Decided)),
    }
}

/// The status after a verdict.
fn status_of(verdict: Verdict) -> Status
    ensures { result ≡ spec.status_of verdict }
{
    match verdict {
        Verdict::Accepted => Status::Decided,
        Verdict::Partial(_) | Verdict::Refused(_, _) => Status::NotHeld,
    }
}

/// The verdict on a tree, whoever wrote it, for the one query of a text, and the status after it. The tree has at most 16 MiB. The
/// only error is want of memory.
pub fn checked(alloc: Global, asked: &Asked, tree: &[u8]) -> Result<(Bytes, Status), AllocError>
    requires lawful { IsLawful asked.now }
    requires one { asked.now.times ≡ 1 }
    requires short { length tree.now ≤ 16777216 }
    ensures { IfOk result (λ d. spec.IsJudged asked.now tree.now d.0 d.1) }
{
    match &asked.problem {
        Some(problem) => {
            let verdict = check_text(alloc, problem, &asked.scope, tree)?;
            let bytes = judged(alloc, verdict)?;
            Ok((bytes, status_of(verdict)))
        }
        None => Ok((Bytes::new(alloc), Status::Decided)),
    }
}
