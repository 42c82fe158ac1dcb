//! Bytes, texts and numbers from the words of a row.
//!
//! - `xHEX`: these bytes; `'TEXT`: the text, where `_` is a space; `h:N` and `i:N`: Int16 and
//!   Int32.
//! - `N*PART`: the part N times.
//!
//! A number that isn't one counts as 0, and a pair that isn't of hexadecimal digits ends its word.

use pg_messages::{PgList, PgStr};
use row_files::{push_pairs, times_and_rest};
use std::alloc::{AllocError, Global};
use std::str::FromStr;

/// The first word, and those behind it.
pub fn first_of(words: &str) -> (&str, &str) {
    words.split_once(" ").unwrap_or((words, ""))
}

/// The bytes that the words spell.
pub fn bytes_of(alloc: Global, words: &str) -> Result<Vec<u8>, AllocError> {
    let mut bytes = Vec::new(alloc);
    for word in words.split_whitespace() {
        put_word(&mut bytes, word)?;
    }
    Ok(bytes)
}

/// Appends the bytes that a word spells.
fn put_word(bytes: &mut Vec<u8>, word: &str) -> Result<(), AllocError> {
    let (times, part) = times_and_rest(word);
    for _ in 0..times {
        put_part(bytes, part)?;
    }
    Ok(())
}

/// Appends the bytes of a part.
fn put_part(bytes: &mut Vec<u8>, part: &str) -> Result<(), AllocError> {
    match part.split_once(":") {
        Some(("i", digits)) => bytes.extend_from_slice(&number::<i32>(digits).to_be_bytes()),
        Some(("h", digits)) => bytes.extend_from_slice(&number::<i16>(digits).to_be_bytes()),
        _ => put_spelled(bytes, part.as_bytes()),
    }
}

/// Appends a text, a space for each `_`, or the bytes of hexadecimal digits.
fn put_spelled(bytes: &mut Vec<u8>, part: &[u8]) -> Result<(), AllocError> {
    match part {
        [b'x', digits @ ..] => put_digits(bytes, digits),
        [b'\'', text @ ..] => put_text(bytes, text),
        _ => Ok(()),
    }
}

fn put_digits(bytes: &mut Vec<u8>, digits: &[u8]) -> Result<(), AllocError> {
    let _are_pairs = push_pairs(bytes, digits)?;
    Ok(())
}

fn put_text(bytes: &mut Vec<u8>, text: &[u8]) -> Result<(), AllocError> {
    for byte in text {
        bytes.push(if *byte == b'_' { b' ' } else { *byte })?;
    }
    Ok(())
}

/// The text of a word.
pub fn text_of(alloc: Global, word: &str) -> Result<PgStr, AllocError> {
    let bytes = bytes_of(alloc, word)?;
    PgStr::copy_of(alloc, str::from_utf8(bytes.as_slice()).unwrap_or("no text"))
}

/// The number that these digits write.
pub fn number<T: FromStr + Default + Drop>(digits: &str) -> T
where
    <T as FromStr>::Err: Drop,
{
    digits.parse::<T>().unwrap_or_default()
}

/// The numbers of words, `N*NUMBER` N times.
pub fn numbers_of<T: FromStr + Default + Copy>(
    alloc: Global,
    words: &str,
) -> Result<PgList<T>, AllocError>
where
    <T as FromStr>::Err: Drop,
{
    let mut numbers = PgList::new(alloc);
    for word in words.split_whitespace() {
        push_numbers(&mut numbers, word)?;
    }
    Ok(numbers)
}

/// Appends the numbers of a word.
fn push_numbers<T: FromStr + Default + Copy>(
    numbers: &mut PgList<T>,
    word: &str,
) -> Result<(), AllocError>
where
    <T as FromStr>::Err: Drop,
{
    let (times, digits) = times_and_rest(word);
    for _ in 0..times {
        numbers.push(number::<T>(digits))?;
    }
    Ok(())
}
