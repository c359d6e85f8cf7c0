ghost use Rattle.std.specs.Prelude.{◌-◌, ◌≡◌, ◌<◌, ◌≤◌, ◌+◌, ◌^◌, ◌∷◌, [], true, false, None, Ok, IfOk, OnOk, MatchOption};
ghost use Rattle.tree_checker.specs.Trees.{Task, facts_of};
ghost use Rattle.tree_checker.specs.Verdicts as verdicts;
ghost use Rattle.tree_checker.specs.steps.Machine as spec;
ghost use Rattle.tree_checker.specs.Texts.{task_of};
ghost use Rattle.tree_checker.specs.steps.Checking as checking;

use crate::store::is_untrue_at;
use crate::verdict::{Cause, Verdict};
use eb_term::Problem;
use eb_value::Scope;
use int_dom::Interval;
use occ_store::{Boxes, Store};
use std::alloc::{AllocError, Global};
use tree_form::{Line, LineFault};

/// Where the next line stands.
#[derive(Clone, Copy, Debug, PartialEq, Eq)]
pub(crate) enum Phase {
    /// Before the tree.
    Heading,
    /// In the tree.
    Within,
    /// After the end.
    Ended,
}

/// A checker, which is fed line by line. It keeps the boxes that are to be closed.
#[derive(Drop)]
pub(crate) struct Checker {
    phase: Phase,
    /// Before the tree and after its end, any.
    boxes: Boxes,
    opens: u64,
}

/// The fault of a line in its store, if it has one.
fn line_fault(
    alloc: Global,
    scope: &Scope,
    problem: &Problem,
    store: &Store,
    line: Line,
) -> Result<Option<Cause>, AllocError>
    ensures { IfOk result (λ fault. fault ≡ verdicts.fault (facts_of scope.now problem.now) (verdicts.within (store.now ∷ []) 0) (Ok line)) }
{
    Ok(match line {
        Line::Header | Line::Begin => Some(Cause::BadLine),
        Line::End => Some(Cause::Unfinished),
        Line::Open => None,
        Line::Split(k, n) => split_fault(store, k, n),
        Line::Clash(k) if store.is_empty_at(k) => None,
        Line::Clash(_) => Some(Cause::NoClash),
        Line::Eval(_) if !store.is_single() => Some(Cause::NotSingle),
        Line::Eval(k) if is_untrue_at(alloc, scope, problem, store, k)? => None,
        Line::Eval(_) => Some(Cause::EvalTrue),
    })
}

/// The fault of a split in its store.
fn split_fault(store: &Store, k: u32, n: i64) -> Option<Cause>
    ensures { result ≡ verdicts.fault checking.no_facts (verdicts.within (store.now ∷ []) 0) (Ok (Line.Split k n)) }
{
    match store.parts(k, n) {
        Some(_) => None,
        None => Some(Cause::BadSplit),
    }
}

/// The fault of a text in its store, by what it is read as.
fn store_fault(
    alloc: Global,
    scope: &Scope,
    problem: &Problem,
    store: &Store,
    reading: Result<Line, LineFault>,
) -> Result<Option<Cause>, AllocError>
    ensures { IfOk result (λ fault. fault ≡ verdicts.fault (facts_of scope.now problem.now) (verdicts.within (store.now ∷ []) 0) reading) }
{
    match reading {
        Ok(line) => line_fault(alloc, scope, problem, store, line),
        Err(LineFault::BadLine) => Ok(Some(Cause::BadLine)),
        Err(LineFault::NoSuchOccurrence) => Ok(Some(Cause::NoSuchOccurrence)),
        Err(LineFault::BadTest) => Ok(Some(Cause::BadSplit)),
    }
}

impl Checker {
    /// A checker that was fed no line.
    pub(crate) fn new(alloc: Global) -> Checker
        ensures start { checking.state_of result ≡ verdicts.heading }
        ensures none_open { result.opens ≡ 0 }
    {
        Checker {
            phase: Phase::Heading,
            boxes: Boxes::none(alloc),
            opens: 0,
        }
    }

    /// The fault of the next line, if it has one.
    fn fault(
        &self,
        alloc: Global,
        scope: &Scope,
        problem: &Problem,
        reading: Result<Line, LineFault>,
    ) -> Result<Option<Cause>, AllocError>
        ensures { IfOk result (λ fault. fault ≡ verdicts.fault (facts_of scope.now problem.now) (checking.state_of self.now) reading) }
    {
        match self.phase {
            Phase::Heading => Ok(heading_fault(reading)),
            Phase::Ended => Ok(ended_fault(reading)),
            Phase::Within => match self.boxes.first() {
                Some(store) => store_fault(alloc, scope, problem, store, reading),
                None => Ok(closed_fault(reading)),
            },
        }
    }

    /// Takes the line, which has no fault.
    fn advance(&mut self, alloc: Global, first: &Store, line: Line) -> Result<(), AllocError>
        requires none { checking.Continues (checking.state_of self.old) line }
        requires few { self.old.opens < 2 ^ 64 - 1 }
        ensures grows { self.new.opens ≤ self.old.opens + 1 }
        ensures next { OnOk result (checking.state_of self.new
            ≡ spec.next (checking.task_at first.now) (checking.state_of self.old) line) }
    {
        match self.phase {
            Phase::Heading => self.start(alloc, first, line),
            Phase::Ended => Ok(()),
            Phase::Within => self.visit(line),
        }
    }

    /// Takes a line that stands before the tree, or begins it.
    fn start(&mut self, alloc: Global, first: &Store, line: Line) -> Result<(), AllocError>
        requires heading { checking.state_of self.old ≡ verdicts.heading }
        ensures grows { self.new.opens ≤ self.old.opens + 1 }
        ensures next { OnOk result (checking.state_of self.new ≡ spec.after_heading (checking.task_at first.now) line) }
    {
        if let Line::Begin = line {
            self.boxes = Boxes::new(alloc, first.copied(alloc)?);
            self.opens = 0;
            self.phase = Phase::Within;
        }
        Ok(())
    }

    /// Takes a line in the tree.
    fn visit(&mut self, line: Line) -> Result<(), AllocError>
        requires within { self.old.phase ≡ Phase.Within }
        requires fits { checking.Continues (checking.state_of self.old) line }
        requires few { self.old.opens < 2 ^ 64 - 1 }
        ensures grows { self.new.opens ≤ self.old.opens + 1 }
        ensures next { OnOk result ((task : Task) → checking.state_of self.new ≡ spec.next task (checking.state_of self.old) line) }
    {
        if self.boxes.first().is_none() {
            self.phase = Phase::Ended;
            return Ok(());
        }
        if let Line::Open = line {
            self.opens += 1;
        }
        step(&mut self.boxes, line)
    }

    /// Takes the next line, or says why it is the first at fault.
    pub(crate) fn feed(
        &mut self,
        alloc: Global,
        scope: &Scope,
        problem: &Problem,
        first: &Store,
        reading: Result<Line, LineFault>,
    ) -> Result<Option<Cause>, AllocError>
        requires few { self.old.opens < 2 ^ 64 - 1 }
        ensures grows { self.new.opens ≤ self.old.opens + 1 }
        ensures fault { IfOk result (λ fault. fault ≡ verdicts.fault (facts_of scope.now problem.now) (checking.state_of self.old) reading) }
        ensures next { result ≡ Ok None → checking.state_of self.new
            ≡ spec.next_place (task_of scope.now problem.now first.now) (checking.state_of self.old) reading }
    {
        if let Some(cause) = self.fault(alloc, scope, problem, reading)? {
            return Ok(Some(cause));
        }
        if let Ok(line) = reading {
            self.advance(alloc, first, line)?;
        }
        Ok(None)
    }

    /// The verdict where the lines end, before line `number`, and the text ends there or within
    /// that line.
    pub(crate) fn finish(self, number: u64, is_cut: bool) -> Verdict
        ensures { result ≡ spec.at_end (checking.state_of self) number is_cut }
    {
        match self.phase {
            Phase::Ended if is_cut => Verdict::Refused(number, Cause::AfterEnd),
            Phase::Ended if self.opens == 0 => Verdict::Accepted,
            Phase::Ended => Verdict::Partial(self.opens),
            _ => Verdict::Refused(number, Cause::Unfinished),
        }
    }
}

/// Puts the parts that a line leaves in the first box's place.
fn step(boxes: &mut Boxes, line: Line) -> Result<(), AllocError>
    requires fits { checking.IsSplitThere boxes.old line }
    ensures { OnOk result (boxes.new ≡ checking.after_line boxes.old line) }
{
    match line {
        Line::Split(k, n) => split(boxes, k, n),
        _ => {
            boxes.close();
            Ok(())
        }
    }
}

/// Puts both parts in the first box's place.
fn split(boxes: &mut Boxes, k: u32, n: i64) -> Result<(), AllocError>
    requires fits { checking.first_has_parts boxes.old k n ≡ true }
    ensures { OnOk result (boxes.new ≡ checking.after_line boxes.old (Line.Split k n)) }
{
    if let Some((low, high)) = first_parts(boxes, k, n) {
        boxes.split(k, low, high)?;
    }
    Ok(())
}

/// The parts of a choice in the first box, where there is a first box and no part is empty.
fn first_parts(boxes: &Boxes, k: u32, n: i64) -> Option<(Interval, Interval)>
    ensures { MatchOption result (checking.first_has_parts boxes.now k n ≡ false) (checking.AreFirstParts boxes.now k n) }
{
    match boxes.first() {
        Some(store) => store.parts(k, n),
        None => None,
    }
}

/// The fault of a text before the tree.
fn heading_fault(reading: Result<Line, LineFault>) -> Option<Cause>
    ensures { result ≡ verdicts.fault checking.no_facts verdicts.heading reading }
{
    match reading {
        Ok(Line::Header | Line::Begin) => None,
        Ok(Line::End) => Some(Cause::Unfinished),
        _ => Some(Cause::BadLine),
    }
}

/// The fault of a text where the tree is closed.
fn closed_fault(reading: Result<Line, LineFault>) -> Option<Cause>
    ensures { result ≡ verdicts.fault checking.no_facts (verdicts.within [] 0) reading }
{
    match reading {
        Ok(Line::End) => None,
        Err(LineFault::BadLine) => Some(Cause::BadLine),
        _ => Some(Cause::AfterEnd),
    }
}

/// The fault of a text after the end.
fn ended_fault(reading: Result<Line, LineFault>) -> Option<Cause>
    ensures { result ≡ verdicts.fault checking.no_facts (verdicts.ended 0) reading }
{
    match reading {
        Err(LineFault::BadLine) => Some(Cause::BadLine),
        _ => Some(Cause::AfterEnd),
    }
}
