//! The test that is written, where it fits a type.
ghost use Rattle.std.specs.Prelude.{◌≡◌, ℕ, List, IfOk, Some, true};
ghost use Rattle.eb_value.specs.declared.scope.Scope.{Scope as TheScope};
ghost use Rattle.eb_value.specs.Typing.{in_range};
ghost use Rattle.std.specs.Option.{option_copied};
ghost use Rattle.eb_value.specs.Texts.{AreReadable};
ghost use Rattle.eb_term.specs.Typed.{part_type_at};
ghost use Rattle.tree_lines.specs.Lines as lines;
ghost use Rattle.tree_lines.specs.Written as form;
ghost use Rattle.tree_lines.specs.steps.Reading as step;
ghost use Rattle.tree_lines.specs.steps.Fitting.{IsTest, plain};
ghost use Rattle.tree_lines.specs.steps.Seen.{seen_test};

use crate::line::LineFault;
use crate::written::Asked;
use eb_names::Names;
use eb_term::{Path, Side};
use eb_value::{EbType, Scope, Shape, ValueFault, read_value};
use narrow_terms::part_of;
use occ_domains::Test;
use std::alloc::{AllocError, Global};

/// The test that is written, of what has the type; `BadTest` where none that is written so fits it.
pub(crate) fn fitting_test(
    alloc: Global,
    asked: Asked<'_>,
    ty: Option<&EbType>,
    scope: &Scope,
    names: &Names,
) -> Result<Test, LineFault>
    requires readable { AreReadable names.now }
    requires small { form.is_asked (seen_test asked) ≡ true }
    ensures { IsTest scope.now names.now (option_copied ty.entry) (seen_test asked.entry) result }
{
    match (asked, ty) {
        (Asked::AtMost(path, n), Some(ty)) => at_most(alloc, path, n, ty),
        (Asked::Is(path, word), Some(ty)) => is(alloc, path, word, ty, scope, names),
        (Asked::Defined, Some(_)) => Ok(Test::Defined),
        (Asked::True, None) => Ok(Test::True),
        (Asked::False, None) => Ok(Test::False),
        (Asked::Undefined, None) => Ok(Test::Undefined),
        _ => Err(LineFault::BadTest),
    }
}

/// Whether an integer is at most a number.
fn at_most(alloc: Global, path: &[u8], n: i64, ty: &EbType) -> Result<Test, LineFault>
    requires { in_range n ≡ true }
    ensures { (scope : TheScope) (names : List (List ℕ)) → IsTest scope names (Some ty.now) (form.at_most (step.sides path.now) n) result }
{
    let path = path_of(alloc, path)?;
    if is_integer_at(ty, path.as_slice()) {
        Ok(Test::AtMost(path, n))
    } else {
        Err(LineFault::BadTest)
    }
}

/// Whether a truth or an atom is this one.
fn is(
    alloc: Global,
    path: &[u8],
    word: &[u8],
    ty: &EbType,
    scope: &Scope,
    names: &Names,
) -> Result<Test, LineFault>
    requires { AreReadable names.now }
    ensures { IsTest scope.now names.now (Some ty.now) (form.is (step.sides path.now) word.now) result }
{
    let path = path_of(alloc, path)?;
    let Some(part) = plain_at(ty, path.as_slice()) else {
        return Err(LineFault::BadTest);
    };
    match read_value(alloc, word, part, scope, names) {
        Ok(value) => Ok(Test::Is(path, value)),
        Err(ValueFault::Form) => Err(LineFault::BadTest),
        Err(ValueFault::Memory) => Err(LineFault::Memory),
    }
}

/// The path whose word this is.
fn path_of(alloc: Global, word: &[u8]) -> Result<Path, AllocError>
    ensures { IfOk result (λ path. path ≡ step.sides word.now) }
{
    let mut path = Path::new(alloc);
    if word == b"-".as_slice() {
        return Ok(path);
    }
    for byte in word {
        path.push(side_of(*byte))?;
    }
    Ok(path)
}

fn side_of(byte: u8) -> Side
    ensures { result ≡ step.side_of byte }
{
    if byte == b'1' {
        Side::First
    } else {
        Side::Second
    }
}

/// The type at a path.
fn type_at<'t>(ty: &'t EbType, path: &[Side]) -> Option<&'t EbType>
    ensures { option_copied result ≡ part_type_at path.now ty.now }
{
    match path {
        [] => Some(ty),
        [side, rest @ ..] => type_at(part_of(ty, *side)?, rest),
    }
}

/// Whether integers stand at a path.
fn is_integer_at(ty: &EbType, path: &[Side]) -> bool
    ensures { result ≡ lines.is_integer_type (part_type_at path.now ty.now) }
{
    match type_at(ty, path) {
        Some(part) => matches!(&part.shape, Shape::Integer),
        None => false,
    }
}

/// The type at a path, if its values are those of BOOL or of a carrier set.
fn plain_at<'t>(ty: &'t EbType, path: &[Side]) -> Option<&'t EbType>
    ensures { option_copied result ≡ plain (part_type_at path.now ty.now) }
{
    let part = type_at(ty, path)?;
    if is_plain(part) { Some(part) } else { None }
}

/// Whether the values are those of BOOL or of a carrier set.
fn is_plain(ty: &EbType) -> bool
    ensures { result ≡ lines.is_plain_type ty.now }
{
    matches!(&ty.shape, Shape::Bool | Shape::Carrier(_))
}
