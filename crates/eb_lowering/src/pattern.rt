//! The pattern of a `%` as an expression. The only error of each function is want of memory.
ghost use Rattle.std.specs.Prelude.{◌≡◌, ◌+◌, [], ◌∷◌, IfOk, OnOk, Some};
ghost use Rattle.eb_resolved.specs.Patterns as pattern;
ghost use Rattle.narrow_terms.specs.Building as built;
ghost use Rattle.eb_lowering.specs.Lowering as spec;
ghost use Rattle.eb_lowering.specs.steps.Grouping as step;

use crate::around::Around;
use crate::leaves::no_value;
use crate::setting::Setting;
use eb_syntax::{Bound, Mark, Operator};
use eb_term::Term;
use eb_value::EbType;
use narrow_terms::operation;
use std::alloc::{AllocError, Global};
use std::marker::Model;

/// `a |-> b`
pub(crate) fn maplet(alloc: Global, first: Term, second: Term) -> Result<Term, AllocError>
    ensures { IfOk result (λ t. t ≡ built.pair first second) }
{
    operation(alloc, Operator::MapsTo, first, second)
}

/// What stands before each open parenthesis, the innermost last.
#[derive(Drop)]
struct Outer {
    terms: Vec<Option<Term>>,
}

impl Model for Outer {
    ghost use Rattle.std.specs.Prelude.{List, Option, reverse};
    ghost use Rattle.eb_term.specs.declared.term.Term.{Term as TheTerm};
    ghost use Rattle.std.specs.Coded.{codes};
    ghost use Rattle.eb_term.specs.contracts.term.Term as e;

    ghost Value = { List (Option TheTerm) };

    ghost coded = { Prim.hlevel (codes, e.the_row.coded) };

    ghost view = { λ o. reverse o.terms.items };
}

impl Outer {
    fn new(alloc: Global) -> Outer
        ensures { result ≡ [] }
    {
        Outer {
            terms: Vec::new(alloc),
        }
    }

    fn push(&mut self, here: Option<Term>) -> Result<(), AllocError>
        ensures { OnOk result (self.new ≡ here ∷ self.old) }
    {
        self.terms.push(here)?;
        Ok(())
    }

    fn pop(&mut self) -> Option<Option<Term>>
        ensures { step.Pops self.old self.new result }
    {
        self.terms.pop()
    }
}

/// A pattern up to some token: what stands since the last open parenthesis, if anything does, and what stands before each of
/// these; and the number of the next identifier.
#[derive(Drop)]
struct Groups {
    here: Option<Term>,
    around: Outer,
    next: u32,
}

impl Model for Groups {
    ghost use Rattle.eb_resolved.specs.Patterns.{Group};
    ghost use Rattle.eb_term.specs.declared.term.Term.{Term as TheTerm};
    ghost use Rattle.std.specs.Coded.{codes};
    ghost use Rattle.eb_term.specs.contracts.term.Term as e;

    ghost Value = { Group TheTerm };

    ghost coded = { Prim.hlevel (codes, e.the_row.coded) };

    ghost view = { λ g. record { here = g.here; around = g.around; next = g.next } };
}

/// Repetitions of `|->` group to the left.
fn paired(alloc: Global, before: Option<Term>, one: Term) -> Result<Term, AllocError>
    ensures { IfOk result (λ t. t ≡ pattern.paired built.pair before one) }
{
    match before {
        Some(before) => maplet(alloc, before, one),
        None => Ok(one),
    }
}

impl Groups {
    fn new(alloc: Global, first: u32) -> Groups
        ensures { result ≡ step.ungrouped first }
    {
        Groups {
            here: None,
            around: Outer::new(alloc),
            next: first,
        }
    }

    /// One more identifier.
    fn identifier(&mut self, alloc: Global, one: Term) -> Result<(), AllocError>
        ensures { OnOk result (Some self.new ≡ pattern.with_one built.pair self.old (self.old.next + 1) (Some one)) }
    {
        let here = paired(alloc, self.here.take(), one)?;
        self.here = Some(here);
        self.next = self.next.checked_add(1).ok_or(AllocError)?;
        Ok(())
    }

    /// An opening parenthesis.
    fn open(&mut self) -> Result<(), AllocError>
        ensures { OnOk result (self.new ≡ step.opened self.old) }
    {
        let here = self.here.take();
        self.around.push(here)
    }

    /// A closing parenthesis, and whether there was an open one with something behind it.
    fn close(&mut self, alloc: Global) -> Result<bool, AllocError>
        ensures { IfOk result (λ closes. step.Reads self.new closes (pattern.closed built.pair self.old.around self.old.next self.old.here)) }
    {
        match (self.around.pop(), self.here.take()) {
            (Some(before), Some(one)) => {
                let here = paired(alloc, before, one)?;
                self.here = Some(here);
                Ok(true)
            }
            (Some(_), None) => Ok(false),
            (None, _) => Ok(false),
        }
    }

    /// One more token, and whether it may stand there.
    fn token(
        &mut self,
        alloc: Global,
        setting: &Setting,
        around: &Around,
        mark: &Mark,
    ) -> Result<bool, AllocError>
        ensures { IfOk result (λ fits. step.Reads self.new fits (pattern.grouped (step.leaf setting.now around.now) built.pair self.old mark.now)) }
    {
        match mark {
            Mark::Identifier(_) => {
                let one = around.identifier(alloc, setting, self.next)?;
                self.identifier(alloc, one)?;
                Ok(true)
            }
            Mark::MapsTo => Ok(true),
            Mark::Open => {
                self.open()?;
                Ok(true)
            }
            Mark::Close => self.close(alloc),
        }
    }
}

/// The expression that the tokens are, if they are one.
fn tuple(
    alloc: Global,
    setting: &Setting,
    around: &Around,
    marks: &[Mark],
    first: u32,
) -> Result<Option<Term>, AllocError>
    ensures { IfOk result (λ t. t ≡ step.tuple setting.now around.now marks.now first) }
{
    let mut groups = Groups::new(alloc, first);
    for mark in marks {
        if !groups.token(alloc, setting, around, mark)? {
            return Ok(None);
        }
    }
    Ok(groups.here)
}

/// The pattern of a `%`, whose first identifier has this number, as an expression.
pub(crate) fn pattern_term(
    alloc: Global,
    setting: &Setting,
    around: &Around,
    bound: &Bound,
    first: u32,
) -> Result<Term, AllocError>
    ensures { IfOk result (λ t. t ≡ spec.pattern_term setting.now bound.now first around.now) }
{
    match bound {
        Bound::Pattern(marks) => {
            match tuple(alloc, setting, around, marks.as_slice(), first)? {
                Some(term) => Ok(term),
                None => no_value(alloc, EbType::boolean()),
            }
        }
        Bound::Identifiers(_) => no_value(alloc, EbType::boolean()),
    }
}
