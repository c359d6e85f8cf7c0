//! The levels of formulas, from the loosest to the tightest.

/// A connective `=>` or `<=>` with its two parts.
pub const PRED: u32 = 0;
/// `or` with its parts.
pub const DISJUNCTION: u32 = 1;
/// `&` with its parts.
pub const CONJUNCTION: u32 = 2;
/// A predicate without connective, or in parentheses.
pub const LIT: u32 = 3;
/// `%`, `UNION` and `INTER`.
pub const EXPR: u32 = 4;
/// `|->` with its two parts.
pub const MAPLET: u32 = 5;
/// `<->`, `-->` and the like with their two parts.
pub const ARROW: u32 = 6;
/// `\/`, `;` and the like with their two parts.
pub const SET: u32 = 7;
/// `..` with its two parts.
pub const RANGE: u32 = 8;
/// `+` or `-` with its two parts.
pub const SUM: u32 = 9;
/// `*`, `/` or `mod` with its two parts.
pub const PROD: u32 = 10;
/// The `-` of a negative number.
pub const NEG: u32 = 11;
/// `^` with its two parts.
pub const POWER: u32 = 12;
/// `~`, an application or an image.
pub const POST: u32 = 13;
/// A name, a number, a call, a set in braces, an expression in parentheses.
pub const PRIM: u32 = 14;
