ghost use Rattle.std.specs.Prelude.{◌≡◌, ◌≢◌, true, IfOk, [], pos, ◌≤ℤ◌, All, ◌<◌, ◌^◌};
ghost use Rattle.eb_value.specs.Values.{int};
ghost use Rattle.std.specs.Option.{option_map};
ghost use Rattle.eb_value.specs.declared.value.Value.{Value};
ghost use Rattle.eb_value.specs.declared.read.ValueFault.TheVariants.{Memory};
ghost use Rattle.eb_value.specs.steps.Reading as spec;
ghost use Rattle.eb_value.specs.steps.Reading.{Gives};
ghost use Rattle.eb_value.specs.Texts as print;
ghost use Rattle.eb_value.specs.Typing as typing;

use crate::lists::Values;
use crate::scope::Scope;
use crate::text::value_text;
use crate::types::{EbType, Shape};
use crate::typing::has_type;
use crate::value::Value;
use eb_names::{Name, Names};
use std::alloc::{AllocError, AllocFailed, Global};

/// Why no value was read.
#[derive(Clone, Copy, PartialEq, Eq, Debug)]
pub enum ValueFault {
    /// The text isn't that of a value of the type.
    Form,
    Memory,
}

impl From<AllocError> for ValueFault {
    ghost from_gives = { λ _ e. e ≡ Memory };

    fn from(_e: AllocError) -> ValueFault {
        ValueFault::Memory
    }
}

impl<T: Drop> From<AllocFailed<T>> for ValueFault {
    ghost from_gives = { λ _ e. e ≡ Memory };

    fn from(_e: AllocFailed<T>) -> ValueFault {
        ValueFault::Memory
    }
}

/// The value of the type whose text this is, as `value_text` writes it. The fault `Form` comes
/// exactly where the text is that of no value of the type in the scope.
pub fn read_value(
    alloc: Global,
    text: &[u8],
    ty: &EbType,
    scope: &Scope,
    names: &Names,
) -> Result<Value, ValueFault>
    requires { print.AreReadable names.now }
    ensures read { IfOk result (λ v. text.now ≡ print.value_text names.now v) }
    ensures typed { IfOk result (λ v. typing.has_type scope.now v ty.now ≡ true) }
    ensures only { IfOk result (λ v. (w : Value) → typing.has_type scope.now w ty.now ≡ true
        → text.now ≡ print.value_text names.now w → w ≡ v) }
    ensures form { result ≡ Err ValueFault.Form → (w : Value)
        → typing.has_type scope.now w ty.now ≡ true → text.now ≢ print.value_text names.now w }
{
    whole_value(alloc, text, ty, scope, scope.sizes.as_slice(), names)
}

/// Reads leniently, and takes what prints as it was read.
fn whole_value(
    alloc: Global,
    text: &[u8],
    ty: &EbType,
    scope: &Scope,
    sizes: &[u32],
    names: &Names,
) -> Result<Value, ValueFault>
    requires { sizes.now ≡ scope.now.sizes }
    ensures gives { Gives (λ v. v) result (spec.whole_value names.now scope.now ty.now text.now) }
    ensures fit { All (λ size. size < 2 ^ 32) sizes.now }
{
    let (value, rest) = value_at(alloc, text, ty, sizes, names)?;
    if !rest.is_empty() || !has_type(&value, ty, scope) {
        return Err(ValueFault::Form);
    }
    let printed = value_text(alloc, &value, names)?;
    if printed.as_slice() != text {
        return Err(ValueFault::Form);
    }
    Ok(value)
}

/// A value at the front of a text, and what is behind it.
#[cycle(reading)]
pub(crate) fn value_at<'a>(
    alloc: Global,
    text: &'a [u8],
    ty: &EbType,
    sizes: &[u32],
    names: &Names,
) -> Result<(Value, &'a [u8]), ValueFault>
    ensures { Gives (λ x. (x.0, x.1.now)) result
        (spec.value_at names.now sizes.now ty.now text.now) }
{
    match &ty.shape {
        Shape::Integer => Ok(integer_at(text)),
        Shape::Bool => truth_at(text).ok_or(ValueFault::Form),
        Shape::Carrier(place) => atom_at(text, *place, sizes, names).ok_or(ValueFault::Form),
        Shape::Product(s, t) => {
            let (first, rest) = opened_at(alloc, text, s.get(), sizes, names)?;
            let (second, rest) = closed_at(alloc, rest, t.get(), sizes, names)?;
            Ok((Value::pair(alloc, first, second)?, rest))
        }
        Shape::Power(t) => {
            let rest = behind_text(b"{", text)?;
            if let Some(end) = after(b"}", rest) {
                return Ok((Value::set(Values::new(alloc)), end));
            }
            members_at(alloc, rest, t.get(), sizes, names)
        }
    }
}

/// A value behind `(` and before `|->`.
#[cycle(reading)]
fn opened_at<'a>(
    alloc: Global,
    text: &'a [u8],
    ty: &EbType,
    sizes: &[u32],
    names: &Names,
) -> Result<(Value, &'a [u8]), ValueFault>
    ensures { Gives (λ x. (x.0, x.1.now)) result
        (spec.opened_at (spec.value_at names.now sizes.now ty.now) text.now) }
{
    let rest = behind_text(b"(", text)?;
    let (value, rest) = value_at(alloc, rest, ty, sizes, names)?;
    let rest = behind_text(b"|->", rest)?;
    Ok((value, rest))
}

/// A value before `)`.
#[cycle(reading)]
fn closed_at<'a>(
    alloc: Global,
    text: &'a [u8],
    ty: &EbType,
    sizes: &[u32],
    names: &Names,
) -> Result<(Value, &'a [u8]), ValueFault>
    ensures { Gives (λ x. (x.0, x.1.now)) result
        (spec.closed_at (spec.value_at names.now sizes.now ty.now) text.now) }
{
    let (value, rest) = value_at(alloc, text, ty, sizes, names)?;
    let rest = behind_text(b")", rest)?;
    Ok((value, rest))
}

/// A set's members up to the brace, and what is behind it.
#[cycle(reading)]
fn members_at<'a>(
    alloc: Global,
    text: &'a [u8],
    ty: &EbType,
    sizes: &[u32],
    names: &Names,
) -> Result<(Value, &'a [u8]), ValueFault>
    ensures { Gives (λ x. (x.0, x.1.now)) result
        (spec.members_at (spec.value_at names.now sizes.now ty.now) text.now [] text.now) }
{
    let mut members = Values::new(alloc);
    let mut rest = text;
    'members: for _byte in text {
        let (member, next) = value_at(alloc, rest, ty, sizes, names)?;
        members.push(member)?;
        let Some((goes_on, next)) = behind(next) else {
            return Err(ValueFault::Form);
        };
        if !goes_on {
            return Ok((Value::set(members), next));
        }
        rest = next;
    }
    Err(ValueFault::Form)
}

/// Whether a set goes on, and the text behind the comma or the brace.
fn behind(text: &[u8]) -> Option<(bool, &[u8])>
    ensures { option_map (λ x. (x.0, x.1.now)) result ≡ spec.behind text.now }
{
    match text {
        [b',', rest @ ..] => Some((true, rest)),
        [b'}', rest @ ..] => Some((false, rest)),
        _ => None,
    }
}

/// What is behind an expected text.
pub(crate) fn after<'a>(front: &[u8], text: &'a [u8]) -> Option<&'a [u8]>
    ensures { option_map (λ rest. rest.now) result ≡ spec.after front.now text.now }
{
    let mut rest = text;
    for byte in front {
        let [first, others @ ..] = rest else {
            return None;
        };
        if first != byte {
            return None;
        }
        rest = others;
    }
    Some(rest)
}

/// What is behind a text that is asked for.
fn behind_text<'a>(front: &[u8], text: &'a [u8]) -> Result<&'a [u8], ValueFault>
    ensures { Gives (λ rest. rest.now) result (spec.after front.now text.now) }
{
    after(front, text).ok_or(ValueFault::Form)
}

fn truth_at(text: &[u8]) -> Option<(Value, &[u8])>
    ensures { option_map (λ x. (x.0, x.1.now)) result ≡ spec.truth_at text.now }
{
    if let Some(rest) = after(b"TRUE", text) {
        return Some((Value::truth(true), rest));
    }
    let rest = after(b"FALSE", text)?;
    Some((Value::truth(false), rest))
}

fn atom_at<'a>(
    text: &'a [u8],
    place: u32,
    sizes: &[u32],
    names: &Names,
) -> Option<(Value, &'a [u8])>
    ensures { option_map (λ x. (x.0, x.1.now)) result
        ≡ spec.atom_at names.now sizes.now place text.now }
{
    let name = names.get(place as usize).map_or("", Name::as_str);
    let rest = after(name.as_bytes(), text)?;
    let rest = after(b"#", rest)?;
    let (number, rest) = digits_at(rest);
    if number > u64::from(size_of(sizes, place)) {
        return None;
    }
    Some((Value::atom(place, number as u32), rest))
}

fn size_of(sizes: &[u32], place: u32) -> u32
    ensures { result ≡ typing.size_of sizes.now place }
{
    sizes.get(place as usize).copied().unwrap_or(0)
}

fn integer_at(text: &[u8]) -> (Value, &[u8])
    ensures { Some (result.0, result.1.now) ≡ spec.integer_at text.now }
{
    match text {
        [b'-', rest @ ..] => {
            let (number, rest) = digits_at(rest);
            (Value::integer(-capped(number)), rest)
        }
        _ => {
            let (number, rest) = digits_at(text);
            (Value::integer(capped(number)), rest)
        }
    }
}

fn capped(number: u64) -> i64
    ensures value { result ≡ spec.capped number }
    ensures positive { pos 0 ≤ℤ result }
{
    i64::try_from(number).unwrap_or(i64::MAX)
}

/// The number that the digits at the front spell, at most `u64::MAX`, and what is behind them.
fn digits_at(text: &[u8]) -> (u64, &[u8])
    ensures number { result.0 ≡ (spec.digits_at 0 text.now).0 }
    ensures behind { result.1.now ≡ (spec.digits_at 0 text.now).1 }
{
    let mut number: u64 = 0;
    let mut rest = text;
    while let [digit, others @ ..] = rest {
        if !digit.is_ascii_digit() {
            return (number, rest);
        }
        number = with_digit(number, *digit);
        rest = others;
    }
    (number, rest)
}

fn with_digit(number: u64, digit: u8) -> u64
    ensures { result ≡ spec.with_digit number digit }
{
    number
        .saturating_mul(10)
        .saturating_add(u64::from(digit.saturating_sub(b'0')))
}
