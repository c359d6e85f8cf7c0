//! The equations of patterns.
ghost use Rattle.std.specs.Prelude.{◌≡◌, [], ◌∷◌, IfOk, OnOk, MatchOption, fold};
ghost use Rattle.eb_typing.specs.steps.Generating as spec;
ghost use Rattle.eb_resolved.specs.Patterns.{ungrouped};

use crate::generated::{Found, Generated};
use eb_syntax::Mark;
use std::alloc::{AllocError, Global};
use std::marker::Model;

/// What stands before each open parenthesis, the innermost last.
#[derive(Drop)]
struct Around {
    outer: Vec<Option<u32>>,
}

impl Model for Around {
    ghost use Rattle.std.specs.Prelude.{ℕ, List, Option, reverse};

    ghost Value = { List (Option ℕ) };

    ghost view = { λ a. reverse a.outer.items };
}

impl Around {
    fn new(alloc: Global) -> Around
        ensures { result ≡ [] }
    {
        Around {
            outer: Vec::new(alloc),
        }
    }

    fn push(&mut self, here: Option<u32>) -> Result<(), AllocError>
        ensures { OnOk result (self.new ≡ here ∷ self.old) }
    {
        self.outer.push(here)?;
        Ok(())
    }

    fn pop(&mut self) -> Option<Option<u32>>
        ensures { spec.Pops self.old self.new result }
    {
        self.outer.pop()
    }
}

/// A pattern up to some token: the number of the type of what stands since the last open parenthesis, if anything does,
/// and of what stands before each of these; and the number of the next identifier.
#[derive(Drop)]
struct Groups {
    here: Option<u32>,
    around: Around,
    next: u32,
}

impl Model for Groups {
    ghost use Rattle.std.specs.Prelude.{ℕ};
    ghost use Rattle.eb_resolved.specs.Patterns.{Group};

    ghost Value = { Group ℕ };

    ghost view = { λ g. record { here = g.here; around = g.around; next = g.next } };
}

fn paired(outer: Option<u32>, number: u32, out: &mut Generated) -> Result<u32, AllocError>
    ensures number { IfOk result (λ n. n ≡ (spec.paired_with outer number out.old).0) }
    ensures made { OnOk result (out.new ≡ (spec.paired_with outer number out.old).1) }
{
    match outer {
        Some(first) => { out.product(first, number) }
        None => Ok(number),
    }
}

/// The number is one of the typing.
pub(crate) fn check(asked: u32, number: u32, out: &mut Generated) -> Result<(), AllocError>
    ensures { OnOk result (out.new ≡ spec.checked asked number out.old) }
{
    if number < asked {
        Ok(())
    } else {
        out.contradict(number)
    }
}

impl Groups {
    fn identifier(&mut self, asked: u32, out: &mut Generated) -> Result<(), AllocError>
        ensures groups { OnOk result (self.new ≡ (spec.identified asked self.old out.old).0) }
        ensures made { OnOk result (out.new ≡ (spec.identified asked self.old out.old).1) }
    {
        let number = self.next;
        check(asked, number, out)?;
        let here = paired(self.here, number, out)?;
        self.here = Some(here);
        self.next = number.checked_add(1).ok_or(AllocError)?;
        Ok(())
    }

    fn open(&mut self) -> Result<(), AllocError>
        ensures { OnOk result (self.new ≡ spec.opened self.old) }
    {
        self.around.push(self.here)?;
        self.here = None;
        Ok(())
    }

    fn close(&mut self, out: &mut Generated) -> Result<(), AllocError>
        ensures groups { OnOk result (self.new ≡ (spec.closed_by self.old.next out.old self.old.around self.old.here).0) }
        ensures made { OnOk result (out.new ≡ (spec.closed_by self.old.next out.old self.old.around self.old.here).1) }
    {
        let outer = self.around.pop();
        match (outer, self.here) {
            (Some(outer), Some(number)) => {
                let here = paired(outer, number, out)?;
                self.here = Some(here);
                Ok(())
            }
            (Some(_), None) | (None, _) => { out.contradict(0) }
        }
    }

    /// One more token.
    fn token(&mut self, asked: u32, token: &Mark, out: &mut Generated) -> Result<(), AllocError>
        ensures groups { OnOk result (self.new ≡ (spec.token asked (self.old, out.old) token.now).0) }
        ensures made { OnOk result (out.new ≡ (spec.token asked (self.old, out.old) token.now).1) }
    {
        match token {
            Mark::Identifier(_) => self.identifier(asked, out),
            Mark::MapsTo => Ok(()),
            Mark::Open => self.open(),
            Mark::Close => self.close(out),
        }
    }
}

/// The pattern of a `%` whose first identifier has this number.
pub(crate) fn tuple(
    alloc: Global,
    asked: u32,
    tokens: &[Mark],
    first: u32,
    out: &mut Generated,
) -> Result<Found, AllocError>
    ensures found { IfOk result (λ found. found ≡ (spec.tuple_made asked tokens.now first out.old).0) }
    ensures made { OnOk result (out.new ≡ (spec.tuple_made asked tokens.now first out.old).1) }
{
    let mut groups = Groups {
        here: None,
        around: Around::new(alloc),
        next: first,
    };
    for token in tokens {
        groups.token(asked, token, out)?;
    }
    match groups.here {
        Some(number) => Ok(Found::Expression(number)),
        None => {
            out.contradict(0)?;
            Ok(Found::Expression(0))
        }
    }
}
