/// Why a line is at fault.
#[derive(Clone, Copy, Debug, PartialEq, Eq)]
pub enum Cause {
    /// The line has none of the forms, or stands before `tree 1` or after it where it must not.
    BadLine,
    /// There is no such choice, or no such fact.
    NoSuchOccurrence,
    /// The test doesn't fit the type of its choice, or leaves a part empty.
    BadSplit,
    /// The choice's domain isn't empty.
    NoClash,
    /// A choice has several values.
    NotSingle,
    /// The fact is True.
    EvalTrue,
    /// The text ends before its tree does.
    Unfinished,
    /// Something stands after the tree.
    AfterEnd,
}

/// The answer on the text of a tree.
#[derive(Clone, Copy, Debug, PartialEq, Eq)]
pub enum Verdict {
    /// The tree refutes the problem.
    Accepted,
    /// The tree leaves this number of boxes open, which isn't 0.
    Partial(u64),
    /// The first line at fault, counted from 1, and the cause.
    Refused(u64, Cause),
}
