ghost use Rattle.std.specs.Prelude.{◌≡◌, ◌++◌, IfOk, OnOk, map, ℕ, List, decimal};
ghost use Rattle.std.specs.List.{join_with_byte};
ghost use Rattle.std.specs.Fmt.{signed_decimal};
ghost use Rattle.eb_value.specs.Texts as spec;

use crate::value::{Form, Value};
use eb_names::{Bytes, Name, Names};
use itoa::Buffer;
use std::alloc::{AllocError, Global};

/// The text of a value, without spaces: a decimal integer, `TRUE` or `FALSE`, `S#1` (the name
/// of the carrier set, which is empty where it has none, and the number), `(a|->b)`, or
/// `{a,b}` with the members in their order. The only error is want of memory.
pub fn value_text(alloc: Global, value: &Value, names: &Names) -> Result<Bytes, AllocError>
    ensures { IfOk result (λ text. text ≡ spec.value_text names.now value.now) }
{
    let mut text = Vec::new(alloc);
    write_value(&mut text, value, names)?;
    Ok(Bytes::from_vec(text))
}

#[cycle(writing)]
fn write_value(text: &mut Vec<u8>, value: &Value, names: &Names) -> Result<(), AllocError>
    ensures { OnOk result (text.new.items ≡ text.old.items ++ spec.value_text names.now value.now) }
{
    match &value.form {
        Form::Int(n) => write_integer(text, *n),
        Form::Bool(truth) => {
            let word: &[u8] = if *truth { b"TRUE" } else { b"FALSE" };
            text.extend_from_slice(word)
        }
        Form::Atom(place, number) => write_atom(text, names, *place, *number),
        Form::Pair(first, second) => {
            text.extend_from_slice(b"(")?;
            write_value(text, first.get(), names)?;
            text.extend_from_slice(b"|->")?;
            write_value(text, second.get(), names)?;
            text.extend_from_slice(b")")
        }
        Form::Set(members) => {
            text.extend_from_slice(b"{")?;
            write_members(text, members.as_slice(), names)?;
            text.extend_from_slice(b"}")
        }
    }
}

/// Writes the values with a comma between two.
#[cycle(writing)]
pub(crate) fn write_members(
    text: &mut Vec<u8>,
    members: &[Value],
    names: &Names,
) -> Result<(), AllocError>
    ensures { OnOk result (text.new.items
        ≡ text.old.items ++ join_with_byte 44 (map (spec.value_text names.now) members.now)) }
{
    let [first, others @ ..] = members else {
        return Ok(());
    };
    write_value(text, first, names)?;
    for member in others {
        text.extend_from_slice(b",")?;
        write_value(text, member, names)?;
    }
    Ok(())
}

fn write_integer(text: &mut Vec<u8>, n: i64) -> Result<(), AllocError>
    ensures { OnOk result (text.new.items ≡ text.old.items ++ signed_decimal n) }
{
    let mut buffer = Buffer::new();
    text.extend_from_slice(buffer.format(n).as_bytes())
}

fn write_atom(text: &mut Vec<u8>, names: &Names, place: u32, number: u32) -> Result<(), AllocError>
    ensures { OnOk result (text.new.items
        ≡ text.old.items ++ spec.atom_text names.now place number) }
{
    let name = names.get(place as usize).map_or("", Name::as_str);
    let mut buffer = Buffer::new();
    text.extend_from_slice(name.as_bytes())?;
    text.extend_from_slice(b"#")?;
    text.extend_from_slice(buffer.format(number).as_bytes())
}
