ghost use Rattle.std.specs.Prelude.{◌≡◌};
ghost use Rattle.tree_lines.specs.declared.line.LineFault.TheVariants.{Memory};

use occ_domains::Test;
use occurrences::{Occurrence, Rule};
use std::alloc::AllocError;
use thiserror::Error;

/// A line of the text of a refutation tree.
#[derive(Drop)]
pub enum Line {
    /// `u OCC`, `d OCC`, `r OCC`: narrows the domain that the rule at the occurrence narrows.
    Narrow(Rule, Occurrence),
    /// `s OCC TEST`: splits the occurrence's domain into what passes the test, and the rest.
    Split(Occurrence, Test),
    /// `x OCC`: closes the box, since nothing may come of the occurrence there.
    Clash(Occurrence),
    /// `e K`: closes the box, since each choice has one value there, of which fact K isn't True.
    Eval(u64),
    /// `o`: leaves the box open.
    Open,
    /// A line that may stand before the tree: `refuted`, or one that begins with `query `, `note `
    /// or `undecided `.
    Header,
    /// `tree 1`: the tree begins.
    Begin,
    /// `end`: the tree is closed.
    End,
}

/// Why a text isn't read as a line.
#[derive(Clone, Copy, Debug, PartialEq, Eq, Error)]
pub enum LineFault {
    /// The text has none of the forms, or a number that isn't in its printed form or isn't within
    /// -2^62..2^62.
    #[error("no line has this form")]
    BadLine,
    /// There is no such occurrence, no such fact, or the rule doesn't fit the occurrence.
    #[error("there is no such occurrence or fact")]
    NoSuchOccurrence,
    /// The test doesn't fit the type of its occurrence.
    #[error("the split does not fit the type of its occurrence")]
    BadTest,
    /// Memory ran out.
    #[error("out of memory")]
    Memory,
}

impl From<AllocError> for LineFault {
    ghost from_gives = { λ _ e. e ≡ Memory };

    fn from(_e: AllocError) -> LineFault {
        LineFault::Memory
    }
}
