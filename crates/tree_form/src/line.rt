use thiserror::Error;

/// A line of the text of a refutation tree.
#[derive(Clone, Copy, Debug, PartialEq, Eq)]
pub enum Line {
    /// `s cK le - N`: splits choice K into what is at most N, and what is above it.
    Split(u32, i64),
    /// `x cK`: closes the box, since choice K has no value there.
    Clash(u32),
    /// `e K`: closes the box, since each choice has one value there, of which fact K isn't True.
    Eval(u64),
    /// `o`: leaves the box open.
    Open,
    /// A line that may stand before the tree: `refuted`, or one that begins with `query `, `note `
    /// or `undecided `.
    Header,
    /// `tree 1`: the tree begins.
    Begin,
    /// `end`: the tree is closed.
    End,
}

/// Why a text isn't read as a line.
#[derive(Clone, Copy, Debug, PartialEq, Eq, Error)]
pub enum LineFault {
    /// The text has none of the forms, or a number that isn't in its printed form or isn't within
    /// -2^62..2^62.
    #[error("no line has this form")]
    BadLine,
    /// There is no such choice, or no such fact.
    #[error("there is no such choice or fact")]
    NoSuchOccurrence,
    /// The test doesn't fit the type of its choice.
    #[error("the split does not fit the type of its choice")]
    BadTest,
}
