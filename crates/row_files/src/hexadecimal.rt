//! Bytes in hexadecimal digits.

use crate::fault::Fault;
use crate::parts::times_and_rest;
use std::alloc::{AllocError, Global};

/// The byte of two hexadecimal digits.
pub(crate) fn hex_byte(high: u8, low: u8) -> Option<u8> {
    let high = (high as char).to_digit(16)?;
    let low = (low as char).to_digit(16)?;
    Some((high * 16 + low) as u8)
}

/// Appends the bytes of hexadecimal digits, which may stand in words.
pub fn push_hex<'t>(bytes: &mut Vec<u8>, digits: &'t str) -> Result<(), Fault<'t>> {
    for word in digits.split_whitespace() {
        if !push_pairs(bytes, word.as_bytes())? {
            return Err(Fault::Line(digits));
        }
    }
    Ok(())
}

/// The bytes of words: hexadecimal digits, or `N*` and digits, whose bytes stand N times.
pub fn hex_words<'t>(alloc: Global, words: &'t str) -> Result<Vec<u8>, Fault<'t>> {
    let mut bytes = Vec::new(alloc);
    for word in words.split_whitespace() {
        push_word(&mut bytes, word)?;
    }
    Ok(bytes)
}

/// Appends the bytes of a word: hexadecimal digits, or `N*` and digits, whose bytes stand N times.
fn push_word<'t>(bytes: &mut Vec<u8>, word: &'t str) -> Result<(), Fault<'t>> {
    let (times, digits) = times_and_rest(word);
    for _ in 0..times {
        push_hex(bytes, digits)?;
    }
    Ok(())
}

/// Appends the bytes of pairs of digits; false where a pair is none.
pub fn push_pairs(bytes: &mut Vec<u8>, digits: &[u8]) -> Result<bool, AllocError> {
    for pair in digits.chunks(2) {
        let Some(byte) = byte_of(pair) else {
            return Ok(false);
        };
        bytes.push(byte)?;
    }
    Ok(true)
}

/// The byte of a pair of digits.
fn byte_of(pair: &[u8]) -> Option<u8> {
    match pair {
        [high, low] => hex_byte(*high, *low),
        _ => None,
    }
}

/// Appends the hexadecimal digits of bytes.
pub fn push_digits(text: &mut String, bytes: &[u8]) -> Result<(), AllocError> {
    for byte in bytes {
        write!(text, "{byte:02x}")?;
    }
    Ok(())
}
