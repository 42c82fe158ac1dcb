//! Texts in which a backslash and a letter stand for a byte.

use crate::fault::Fault;
use crate::hexadecimal::hex_byte;
use std::alloc::{AllocError, Global};

/// Appends the bytes of a text. `\s`, `\t`, `\n`, `\v`, `\f` and `\r` are whitespace, the bytes 20
/// and 09 to 0D. `\x7c` is the byte of that hexadecimal number. `\x` at the end, or before another
/// `\`, is the byte FF.
pub fn push_unescaped<'t>(bytes: &mut Vec<u8>, text: &'t str) -> Result<(), Fault<'t>> {
    for (place, part) in text.split("\\").enumerate() {
        if place == 0 {
            bytes.extend_from_slice(part.as_bytes())?;
        } else if !push_escaped(bytes, part.as_bytes())? {
            return Err(Fault::Line(text));
        }
    }
    Ok(())
}

/// The bytes of a text, as [`push_unescaped`] appends them.
pub fn unescaped<'t>(alloc: Global, text: &'t str) -> Result<Vec<u8>, Fault<'t>> {
    let mut bytes = Vec::new(alloc);
    push_unescaped(&mut bytes, text)?;
    Ok(bytes)
}

/// Appends the bytes of a text `times` times.
pub fn push_repeated<'t>(
    alloc: Global,
    bytes: &mut Vec<u8>,
    times: u32,
    text: &'t str,
) -> Result<(), Fault<'t>> {
    let piece = unescaped(alloc, text)?;
    for _ in 0..times {
        bytes.extend_from_slice(piece.as_slice())?;
    }
    Ok(())
}

/// Appends the byte that stands behind a backslash, and what follows; false where none stands
/// there.
fn push_escaped(bytes: &mut Vec<u8>, part: &[u8]) -> Result<bool, AllocError> {
    match escaped(part) {
        None => Ok(false),
        Some((byte, rest)) => {
            bytes.push(byte)?;
            bytes.extend_from_slice(rest)?;
            Ok(true)
        }
    }
}

/// The byte that stands behind a backslash, and what follows.
fn escaped(part: &[u8]) -> Option<(u8, &[u8])> {
    match part {
        [b'x'] => Some((255, &[])),
        [b'x', high, low, rest @ ..] => Some((hex_byte(*high, *low)?, rest)),
        [letter, rest @ ..] => Some((whitespace(*letter)?, rest)),
        [] => None,
    }
}

/// The whitespace that a letter stands for.
fn whitespace(letter: u8) -> Option<u8> {
    match letter {
        b's' => Some(b' '),
        b't' => Some(b'\t'),
        b'n' => Some(b'\n'),
        b'v' => Some(b'\x0b'),
        b'f' => Some(b'\x0c'),
        b'r' => Some(b'\r'),
        _ => None,
    }
}

/// Appends a character, with `\t` and `\n` for tabs and line ends.
pub fn push_shown(text: &mut String, c: char) -> Result<(), AllocError> {
    match c {
        '\t' => text.push_str("\\t"),
        '\n' => text.push_str("\\n"),
        _ => text.push(c),
    }
}
