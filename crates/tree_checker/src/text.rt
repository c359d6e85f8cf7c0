ghost use Rattle.std.specs.Prelude.{List, ◌≡◌, ◌<◌, ◌^◌, ◌≤ℤ◌, IfOk, length, not, ◌==◌, option_map};
ghost use Rattle.std.specs.List.{prefix_len};
ghost use Rattle.eb_value.specs.declared.value.Value.{Value};
ghost use Rattle.eb_meaning.specs.Problems.{IsSolution};
ghost use Rattle.tree_checker.specs.declared.verdict.Verdict.{Verdict};
ghost use Rattle.occ_store.specs.Stores.{HaveIntegers};
ghost use Rattle.tree_checker.specs.Texts as texts;
ghost use Rattle.tree_checker.specs.steps.Machine as spec;

use crate::checker::Checker;
use crate::verdict::Verdict;
use eb_term::Problem;
use eb_value::Scope;
use occ_store::{Store, first_stores_have_the_valuations};
use std::alloc::{AllocError, Global};
use tree_form::{lines_are_read_back, read_line};

/// The verdict on the text of a tree, whoever wrote it, for a problem whose choices are integers.
///
/// `Accepted`: the tree refutes the problem, so it has no solution in the scope. `Partial`: the
/// tree holds, and leaves this number of boxes open. `Refused`: the number of the first line at
/// fault, counted from 1, and its cause. The only error is want of memory.
pub fn check_text(
    alloc: Global,
    problem: &Problem,
    scope: &Scope,
    text: &[u8],
) -> Result<Verdict, AllocError>
    requires integers { HaveIntegers problem.now.choices }
    requires few { length problem.now.choices < 2 ^ 32 }
    requires scope { scope.now.lo ≤ℤ scope.now.hi }
    requires short { length text.now < 2 ^ 63 }
    ensures exact { IfOk result (texts.IsVerdict scope.now problem.now text.now) }
    ensures only { IfOk result (λ verdict. (other : Verdict) → texts.IsVerdict scope.now problem.now text.now other → verdict ≡ other) }
    ensures sound { IfOk result (λ verdict. verdict ≡ Verdict.Accepted → (values : List Value) → IsSolution scope.now problem.now values → ⊥) }
{
    lines_are_read_back();
    first_stores_have_the_valuations();
    let first = Store::first(alloc, problem.choices.as_slice(), scope)?;
    let verdict = run(alloc, scope, problem, &first, text)?;
    Ok(verdict)
}

/// Feeds a checker with the text's lines, up to the first at fault.
fn run(
    alloc: Global,
    scope: &Scope,
    problem: &Problem,
    first: &Store,
    text: &[u8],
) -> Result<Verdict, AllocError>
    requires few { length problem.now.choices < 2 ^ 32 }
    requires short { length text.now < 2 ^ 63 }
    ensures { IfOk result (λ verdict. (reader : spec.Reader problem.now)
        → verdict ≡ spec.text_verdict reader.read scope.now problem.now first.now text.now) }
{
    let mut checker = Checker::new(alloc);
    let mut number = 1;
    let mut rest = text;
    while let Some((line, more)) = first_line(rest) {
        if let Some(cause) = checker.feed(alloc, scope, problem, first, read_line(line, problem))? {
            return Ok(Verdict::Refused(number, cause));
        }
        number += 1;
        rest = more;
    }
    Ok(checker.finish(number, !rest.is_empty()))
}

/// The first line without its line feed, and what comes after the line feed.
#[tactic(auto, using(crate::proofs::Cuts::cut_here, crate::proofs::Cuts::cut_nowhere))]
fn first_line(text: &[u8]) -> Option<(&[u8], &[u8])>
    ensures { option_map (λ l. (l.0.now, l.1.now)) result ≡ spec.first_line text.now }
{
    let n = line_length(text);
    if n < text.len() {
        let (line, more) = text.split_at(n);
        Some((line, &more[1..]))
    } else {
        None
    }
}

/// How many bytes stand before the first line feed.
fn line_length(text: &[u8]) -> usize
    ensures { result ≡ prefix_len (λ b. not (b == 10)) text.now }
{
    text.iter().take_while(|byte| **byte != b'\n').count()
}
