use std::alloc::{AllocError, Global};

/// The byte that two hexadecimal digits write.
fn byte_of(digits: &str) -> u8 {
    match u8::from_str_radix(digits, 16) {
        Ok(byte) => byte,
        Err(_) => 0,
    }
}

/// The white space that a letter stands for.
fn white_space(letter: u8) -> Option<u8> {
    match letter {
        b'n' => Some(b'\n'),
        b'r' => Some(b'\r'),
        b't' => Some(b'\t'),
        b'b' => Some(b' '),
        _ => None,
    }
}

/// What stands behind a `$`: `n`, `r` and `t` are white space, `b` a blank, `x` and two digits a byte, and a number with a text
/// in quotes that text so many times.
fn push_piece(piece: &str, bytes: &mut Vec<u8>) -> Result<(), AllocError> {
    let [letter, rest @ ..] = piece.as_bytes() else {
        return Ok(());
    };
    match white_space(*letter) {
        Some(byte) => {
            bytes.push(byte)?;
            bytes.extend_from_slice(rest)
        }
        None => push_more(piece, bytes),
    }
}

fn push_more(piece: &str, bytes: &mut Vec<u8>) -> Result<(), AllocError> {
    if let Some(digits) = piece.strip_prefix("x") {
        bytes.push(byte_of(digits))?;
        return Ok(());
    }
    let Some((number, quoted)) = piece.split_once('"') else {
        return Ok(());
    };
    let (text, rest) = quoted.split_once('"').unwrap_or((quoted, ""));
    let times = number.parse::<u32>().unwrap_or(0);
    for _ in 0..times {
        bytes.extend_from_slice(text.as_bytes())?;
    }
    bytes.extend_from_slice(rest.as_bytes())
}

/// The bytes that a column stands for.
pub(crate) fn bytes_of(alloc: Global, column: &str) -> Result<Vec<u8>, AllocError> {
    let mut bytes = Vec::new(alloc);
    let mut is_first = true;
    for piece in column.split('$') {
        if is_first {
            bytes.extend_from_slice(piece.as_bytes())?;
            is_first = false;
        } else {
            push_piece(piece, &mut bytes)?;
        }
    }
    Ok(bytes)
}
