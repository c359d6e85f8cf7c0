//! Rows of values, as texts with a comma between two.

ghost use Rattle.std.specs.Prelude.{◌≡◌, ◌≢◌, IfOk, [], List, All, ◌<◌, ◌^◌};
ghost use Rattle.std.specs.Option.{option_map};
ghost use Rattle.eb_value.specs.declared.value.Value.{Value};
ghost use Rattle.eb_value.specs.steps.Rows as spec;
ghost use Rattle.eb_value.specs.steps.Reading.{Gives};
ghost use Rattle.eb_value.specs.Texts as print;
ghost use Rattle.eb_value.specs.Typing.{AreOfTypes};

use crate::lists::Row;
use crate::read::{ValueFault, after, value_at};
use crate::scope::Scope;
use crate::text::write_members;
use crate::types::EbType;
use crate::typing::has_type;
use crate::value::Value;
use eb_names::{Bytes, Names};
use std::alloc::{AllocError, Global};

/// The texts of the values, each as `value_text` writes it, in their order with a comma between
/// two and no spaces: `1,S#2`. No values have the empty text. The only error is want of memory.
pub fn values_text(alloc: Global, values: &[Value], names: &Names) -> Result<Bytes, AllocError>
    ensures { IfOk result (λ text. text ≡ print.values_text names.now values.now) }
{
    let mut text = Vec::new(alloc);
    write_members(&mut text, values, names)?;
    Ok(Bytes::from_vec(text))
}

/// The values, one of each type in the order of the types, whose text this is, as `values_text`
/// writes it. The fault `Form` comes exactly where the text is that of no such values in the
/// scope. For no types the empty text alone is read, as no values.
pub fn read_values(
    alloc: Global,
    text: &[u8],
    types: &[EbType],
    scope: &Scope,
    names: &Names,
) -> Result<Row, ValueFault>
    requires { print.AreReadable names.now }
    ensures read { IfOk result (λ vs. text.now ≡ print.values_text names.now vs) }
    ensures typed { IfOk result (λ vs. AreOfTypes scope.now vs types.now) }
    ensures only { IfOk result (λ vs. (ws : List Value) → AreOfTypes scope.now ws types.now
        → text.now ≡ print.values_text names.now ws → ws ≡ vs) }
    ensures form { result ≡ Err ValueFault.Form → (ws : List Value)
        → AreOfTypes scope.now ws types.now → text.now ≢ print.values_text names.now ws }
{
    whole_row(alloc, text, types, scope, scope.sizes.as_slice(), names)
}

/// Reads leniently, and takes what prints as it was read.
fn whole_row(
    alloc: Global,
    text: &[u8],
    types: &[EbType],
    scope: &Scope,
    sizes: &[u32],
    names: &Names,
) -> Result<Row, ValueFault>
    requires { sizes.now ≡ scope.now.sizes }
    ensures gives { Gives (λ vs. vs) result (spec.whole_row names.now scope.now types.now text.now) }
    ensures fit { All (λ size. size < 2 ^ 32) sizes.now }
{
    let (values, rest) = row_at(alloc, text, types, scope, names)?;
    if !rest.is_empty() {
        return Err(ValueFault::Form);
    }
    let printed = values_text(alloc, values.as_slice(), names)?;
    if printed.as_slice() != text {
        return Err(ValueFault::Form);
    }
    Ok(values)
}

/// Values of the types, and what is behind them.
fn row_at<'a>(
    alloc: Global,
    text: &'a [u8],
    types: &[EbType],
    scope: &Scope,
    names: &Names,
) -> Result<(Row, &'a [u8]), ValueFault>
    ensures { Gives (λ x. (x.0, x.1.now)) result
        (spec.row_at names.now scope.now types.now [] text.now) }
{
    let mut values = Row::new(alloc);
    let mut rest = text;
    for ty in types {
        let (value, next) = next_at(alloc, rest, values.as_slice(), ty, scope, names)?;
        values.push(value)?;
        rest = next;
    }
    Ok((values, rest))
}

/// The next value of a row, after those before it, and what is behind it.
fn next_at<'a>(
    alloc: Global,
    text: &'a [u8],
    front: &[Value],
    ty: &EbType,
    scope: &Scope,
    names: &Names,
) -> Result<(Value, &'a [u8]), ValueFault>
    ensures { Gives (λ x. (x.0, x.1.now)) result
        (spec.next_at names.now scope.now front.now ty.now text.now) }
{
    let rest = separated(front, text)?;
    let (value, rest) = value_at(alloc, rest, ty, scope.sizes.as_slice(), names)?;
    if !has_type(&value, ty, scope) {
        return Err(ValueFault::Form);
    }
    Ok((value, rest))
}

/// What is behind the comma that comes after other values.
fn separated<'a>(front: &[Value], text: &'a [u8]) -> Result<&'a [u8], ValueFault>
    ensures { Gives (λ rest. rest.now) result (spec.separated front.now text.now) }
{
    match front {
        [] => Ok(text),
        _ => after(b",", text).ok_or(ValueFault::Form),
    }
}
