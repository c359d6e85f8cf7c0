ghost use Rattle.std.specs.Prelude.{ℕ, ◌≡◌, ◌≤ℤ◌, ◌<◌, ◌≤◌, ◌^◌, ◌+◌, ◌∷◌, [], true, false, not, length, IfOk, MatchOption};
ghost use Rattle.std.specs.List.{list_all};
ghost use Rattle.eb_meaning.specs.Truths.{is_true};
ghost use Rattle.eb_meaning.specs.Problems.{AreDefinitionsNamed, fact_at};
ghost use Rattle.eb_meaning.specs.Slots.{AreCanonicalSlots};
ghost use Rattle.int_dom.specs.Intervals.{is_single};
ghost use Rattle.occ_store.specs.Places.{has_at};
ghost use Rattle.occ_store.specs.Stores.{HaveIntegers};
ghost use Rattle.tree_checker.specs.Trees.{facts_of};
ghost use Rattle.branch_search.specs.Search as spec;
ghost use Rattle.branch_search.specs.steps.Going as going;

use eb_meaning::{fact_at, slots_of};
use eb_term::{Problem, Term};
use eb_value::{Row, Scope, Value};
use int_dom::{Halves, Interval};
use occ_store::{Boxes, Store, first_stores_have_the_valuations};
use sqlite_items::Items;
use std::alloc::{AllocError, Global};
use tree_checker::{closing_lines_are_trees, splits_are_fewer_than_valuations};
use tree_form::Line;

/// What a search found.
#[derive(Drop)]
pub enum Answer {
    /// A solution, one value a choice.
    Found(Row),
    /// The lines of a refutation, in prefix order.
    Refuted(Items<Line>),
    /// The lines of a tree that leaves boxes open, in prefix order, since the budget was spent.
    Undecided(Items<Line>),
}

/// What a search does in a store.
#[derive(Drop)]
enum Move {
    /// To part the domain of this choice, which hasn't one value.
    Split(u32, Interval),
    /// To leave the box open: some choice isn't single, and no split is left.
    Open,
    /// To close the box: each choice is single, and this fact isn't True.
    Eval(u64),
    /// To answer these values, of which each fact is True.
    Found(Row),
}

/// A solution of a problem whose choices are integers of the scope, or the tree of its search: one
/// that refutes the problem, or where the search made as many splits as the budget allows, one that
/// leaves boxes open. It never leaves any open where the budget is at least the number of valuations
/// less one. The tree is searched depth first, and each split halves the domain of the first choice
/// that isn't single. Each definition of the problem is to be named by some fact, which tells where
/// it is Undefined. The only error is want of memory.
pub fn search(
    alloc: Global,
    problem: &Problem,
    scope: &Scope,
    budget: u64,
) -> Result<Answer, AllocError>
    requires integers { HaveIntegers problem.now.choices }
    requires few { length problem.now.choices < 2 ^ 32 }
    requires scope { scope.now.lo ≤ℤ scope.now.hi }
    requires named { AreDefinitionsNamed problem.now }
    ensures { IfOk result (spec.Answers scope.now problem.now budget) }
{
    first_stores_have_the_valuations();
    splits_are_fewer_than_valuations(scope, problem);
    closing_lines_are_trees();
    let first = Store::first(alloc, problem.choices.as_slice(), scope)?;
    let answer = close(alloc, scope, problem, first, budget)?;
    Ok(answer)
}

/// Searches until each box is closed or left open, or a solution is found.
fn close(
    alloc: Global,
    scope: &Scope,
    problem: &Problem,
    first: Store,
    budget: u64,
) -> Result<Answer, AllocError>
    requires filled { going.IsWithin first first }
    requires few { length first < 2 ^ 32 }
    ensures { IfOk result (going.Ends (facts_of scope.now problem.now) first budget) }
{
    let mut boxes = Boxes::new(alloc, first);
    let mut lines = Vec::new(alloc);
    let mut left = budget;
    let mut gave_up = false;
    while let Some(store) = boxes.first() {
        match next_move(alloc, scope, problem, store, left)? {
            Move::Split(choice, domain) => {
                let halves = domain.halves();
                lines.push(split_line(choice, halves))?;
                boxes.split(choice, halves.low, halves.high)?;
                left -= 1;
            }
            Move::Open => {
                lines.push(Line::Open)?;
                boxes.close();
                gave_up = true;
            }
            Move::Eval(fact) => {
                lines.push(Line::Eval(fact))?;
                boxes.close();
            }
            Move::Found(row) => return Ok(Answer::Found(row)),
        }
    }
    let lines = Items::from_vec(lines);
    Ok(if gave_up {
        Answer::Undecided(lines)
    } else {
        Answer::Refuted(lines)
    })
}

/// The line that parts the domain of a choice in these halves.
fn split_line(choice: u32, halves: Halves) -> Line
    ensures { result ≡ Line.Split choice halves.middle }
{
    Line::Split(choice, halves.middle)
}

/// What to do in a store with so many splits left.
fn next_move(
    alloc: Global,
    scope: &Scope,
    problem: &Problem,
    store: &Store,
    left: u64,
) -> Result<Move, AllocError>
    requires few { length store.now < 2 ^ 32 }
    ensures { IfOk result (going.IsMove (facts_of scope.now problem.now) store.now left) }
{
    match store.loose() {
        Some((choice, domain)) if left > 0 => Ok(Move::Split(choice, domain)),
        Some(_) => Ok(Move::Open),
        None => {
            let next = evaluate(alloc, scope, problem, store)?;
            Ok(next)
        }
    }
}

/// What to do in a store whose choices are single.
fn evaluate(
    alloc: Global,
    scope: &Scope,
    problem: &Problem,
    store: &Store,
) -> Result<Move, AllocError>
    requires single { list_all is_single store.now ≡ true }
    ensures { IfOk result (λ next. (left : ℕ) → going.IsMove (facts_of scope.now problem.now) store.now left next) }
{
    let values = store.values(alloc)?;
    let slots = slots_of(
        alloc,
        scope,
        problem.definitions.as_slice(),
        values.as_slice(),
    )?;
    match untrue_at(alloc, scope, problem.facts.as_slice(), slots.as_slice())? {
        Some(fact) => Ok(Move::Eval(fact)),
        None => Ok(Move::Found(values)),
    }
}

/// The place of the first fact that isn't True.
fn untrue_at(
    alloc: Global,
    scope: &Scope,
    facts: &[Term],
    slots: &[Option<Value>],
) -> Result<Option<u64>, AllocError>
    requires { AreCanonicalSlots slots.now }
    ensures { IfOk result (λ at. MatchOption at (list_all (λ fact. is_true (fact_at scope.now slots.now fact)) facts.now ≡ true)
        (λ k. has_at (λ fact. not (is_true (fact_at scope.now slots.now fact))) k facts.now ≡ true)) }
{
    for (k, fact) in facts.iter().enumerate() {
        if !fact_at(alloc, scope, slots, fact)?.is_true() {
            return Ok(Some(k as u64));
        }
    }
    Ok(None)
}
