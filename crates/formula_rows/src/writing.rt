use std::alloc::AllocError;
use std::fmt::Debug;

/// A text with a number behind it.
pub(crate) fn put_at(text: &str, place: u32, out: &mut String) -> Result<(), AllocError> {
    out.push_str(text)?;
    write!(out, "{place}")
}

/// A text with a number of the units behind it.
pub(crate) fn put_number(text: &str, number: i64, out: &mut String) -> Result<(), AllocError> {
    out.push_str(text)?;
    write!(out, "{number}")
}

/// A text with a text behind it.
pub(crate) fn put_pair(text: &str, more: &str, out: &mut String) -> Result<(), AllocError> {
    out.push_str(text)?;
    out.push_str(more)
}

/// A text with what is shown by its name behind it.
pub(crate) fn put_name<T: Debug + Copy + Drop>(
    text: &str,
    named: T,
    out: &mut String,
) -> Result<(), AllocError> {
    out.push_str(text)?;
    write!(out, "{named:?}")
}
