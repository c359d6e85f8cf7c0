//! The scope that the rows behind it are in. The first two carrier sets are named S and T, and the others
//! have no name.
ghost use Rattle.std.specs.Prelude.{IfOk};
ghost use Rattle.eb_value.specs.Texts.{AreReadable};

use eb_names::{Bytes, Name, Names};
use eb_value::{EbType, Scope, Sizes, Value, ValueFault, read_value, value_text};
use std::alloc::{AllocError, Global};

/// The names of the carrier sets.
fn names(alloc: Global) -> Result<Names, AllocError>
    ensures { IfOk result AreReadable }
{
    let mut names = Names::new(alloc);
    names.push(Name::new(alloc, "S")?)?;
    names.push(Name::new(alloc, "T")?)?;
    Ok(names)
}

/// No integers, and no carrier set.
pub(crate) fn nothing(alloc: Global) -> Scope {
    Scope {
        lo: 0,
        hi: 0,
        sizes: Sizes::new(alloc),
        depth: 0,
    }
}

/// Sets the scope that the fields write: `scope`, the lower and the upper bound, and the size of each carrier
/// set. False where they write none.
pub(crate) fn set_scope(
    alloc: Global,
    scope: &mut Scope,
    fields: &[&str],
) -> Result<bool, AllocError> {
    let ["scope", lo, hi, sizes @ ..] = fields else {
        return Ok(false);
    };
    scope.sizes = Sizes::new(alloc);
    if !set_bound(&mut scope.lo, lo) || !set_bound(&mut scope.hi, hi) {
        return Ok(false);
    }
    push_sizes(&mut scope.sizes, sizes)
}

fn set_bound(bound: &mut i64, text: &str) -> bool {
    match text.parse::<i64>() {
        Ok(number) => *bound = number,
        Err(_) => return false,
    }
    true
}

fn push_sizes(sizes: &mut Sizes, texts: &[&str]) -> Result<bool, AllocError> {
    for text in texts {
        match text.parse::<u32>() {
            Ok(size) => sizes.push(size)?,
            Err(_) => return Ok(false),
        }
    }
    Ok(true)
}

/// The values whose texts these are, up to the first text that is of none. The first has the first type, and
/// the others have the second.
pub(crate) fn values_of(
    alloc: Global,
    scope: &Scope,
    (first, second): (&EbType, &EbType),
    texts: &[&str],
) -> Result<Vec<Value>, AllocError> {
    let mut values = Vec::new(alloc);
    let mut ty = first;
    for text in texts {
        if !push_read(alloc, scope, ty, text, &mut values)? {
            break;
        }
        ty = second;
    }
    Ok(values)
}

/// Adds the value of the type whose text this is, and tells whether there is one.
fn push_read(
    alloc: Global,
    scope: &Scope,
    ty: &EbType,
    text: &str,
    values: &mut Vec<Value>,
) -> Result<bool, AllocError> {
    let names = names(alloc)?;
    match read_value(alloc, text.as_bytes(), ty, scope, &names) {
        Ok(value) => push(values, value),
        Err(ValueFault::Form) => Ok(false),
        Err(ValueFault::Memory) => Err(AllocError),
    }
}

fn push(values: &mut Vec<Value>, value: Value) -> Result<bool, AllocError> {
    values.push(value)?;
    Ok(true)
}

/// The text of a value.
pub(crate) fn text_of(alloc: Global, value: &Value) -> Result<Bytes, AllocError> {
    let names = names(alloc)?;
    value_text(alloc, value, &names)
}
