//! The forms that a text may have, before a problem is asked.
use occurrences::{Place, Rule};

/// A test as it is written: the word of a path, and a number or the text of a value.
#[derive(Clone, Copy)]
pub(crate) enum Asked<'a> {
    AtMost(&'a [u8], i64),
    Is(&'a [u8], &'a [u8]),
    Has(&'a [u8], &'a [u8]),
    Card(&'a [u8], i64),
    Defined,
    True,
    False,
    Undefined,
}

/// A line as it is written: a place is followed by what stands in brackets, where it has any.
#[derive(Clone, Copy)]
pub(crate) enum Written<'a> {
    Narrow(Rule, Place, &'a [u8]),
    Split(Place, &'a [u8], Asked<'a>),
    Clash(Place, &'a [u8]),
    Eval(u64),
    Open,
    Header(&'a [u8]),
    Begin,
    End,
}
