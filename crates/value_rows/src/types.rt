//! Types as the rows write them, each operator before its parts: `INT`, `BOOL`, `S` and `T` for the first two
//! carrier sets, `#N` for the carrier set with the place N, `POW t` and `** t u`.

use eb_value::EbType;
use std::alloc::{AllocError, Global};

/// The types that a text writes, each with a comma behind it but the last, from the last to the first. None
/// are there where a word makes none.
pub(crate) fn types_of(alloc: Global, text: &str) -> Result<Vec<EbType>, AllocError> {
    let mut types = Vec::new(alloc);
    for word in text.rsplit(' ') {
        if !push_type(alloc, &mut types, word.trim_end_matches(','))? {
            types.clear();
            break;
        }
    }
    Ok(types)
}

/// Puts the type that a word makes of those behind it in their place, the next of which stands last. False
/// where it makes none.
fn push_type(alloc: Global, types: &mut Vec<EbType>, word: &str) -> Result<bool, AllocError> {
    match word {
        "POW" => push_power(alloc, types),
        "**" => push_product(alloc, types),
        "INT" => push(types, EbType::integer()),
        "BOOL" => push(types, EbType::boolean()),
        "S" => push(types, EbType::carrier(0)),
        "T" => push(types, EbType::carrier(1)),
        _ => push_carrier(types, word),
    }
}

fn push(types: &mut Vec<EbType>, ty: EbType) -> Result<bool, AllocError> {
    types.push(ty)?;
    Ok(true)
}

fn push_power(alloc: Global, types: &mut Vec<EbType>) -> Result<bool, AllocError> {
    match types.pop() {
        Some(members) => push(types, EbType::power(alloc, members)?),
        None => Ok(false),
    }
}

fn push_product(alloc: Global, types: &mut Vec<EbType>) -> Result<bool, AllocError> {
    match types.pop() {
        Some(first) => push_pairs(alloc, types, first),
        None => Ok(false),
    }
}

fn push_pairs(alloc: Global, types: &mut Vec<EbType>, first: EbType) -> Result<bool, AllocError> {
    match types.pop() {
        Some(second) => push(types, EbType::product(alloc, first, second)?),
        None => Ok(false),
    }
}

fn push_carrier(types: &mut Vec<EbType>, word: &str) -> Result<bool, AllocError> {
    match word.strip_prefix("#") {
        Some(place) => push_numbered(types, place),
        None => Ok(false),
    }
}

fn push_numbered(types: &mut Vec<EbType>, place: &str) -> Result<bool, AllocError> {
    match place.parse::<u32>() {
        Ok(place) => push(types, EbType::carrier(place)),
        Err(_) => Ok(false),
    }
}
