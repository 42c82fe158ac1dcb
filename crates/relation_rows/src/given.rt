//! What rows on files give: a file, how much of it each read gives, and which reads fail.

use pg_messages::{PgBytes, PgList};
use pg_streams::MemorySource;
use row_files::{Fault, part, push_repeated, push_unescaped, times_and_rest};
use std::alloc::{AllocError, Global};
use std::str::FromStr;

/// The row's file: its bytes, the most that each read gives, and the reads that fail.
pub fn file_of<'t>(alloc: Global, row: &'t str) -> Result<MemorySource, Fault<'t>> {
    let mut bytes = Vec::new(alloc);
    push_repeats(alloc, &mut bytes, part(row, 2)?)?;
    let pieces = numbers_of::<usize>(alloc, part(row, 4).unwrap_or(""))?;
    let fails = numbers_of::<u64>(alloc, part(row, 5).unwrap_or(""))?;
    Ok(MemorySource::new(PgBytes::from_vec(bytes), pieces, fails))
}

/// Appends the bytes that a text writes. `{3*ab}` is `ababab`.
pub fn push_repeats<'t>(
    alloc: Global,
    bytes: &mut Vec<u8>,
    text: &'t str,
) -> Result<(), Fault<'t>> {
    for part in text.split("{") {
        match part.split_once("}") {
            None => push_unescaped(bytes, part)?,
            Some((repeat, plain)) => {
                let (times, piece) = times_and_rest(repeat);
                push_repeated(alloc, bytes, times, piece)?;
                push_unescaped(bytes, plain)?;
            }
        }
    }
    Ok(())
}

/// Numbers with spaces between them. `{3*1 }` is `1 1 1 `.
fn numbers_of<'t, T: FromStr + Drop>(alloc: Global, text: &'t str) -> Result<PgList<T>, Fault<'t>>
where
    <T as FromStr>::Err: Drop,
{
    let mut bytes = Vec::new(alloc);
    push_repeats(alloc, &mut bytes, text)?;
    match numbers_in(alloc, bytes.as_slice())? {
        None => Err(Fault::Line(text)),
        Some(numbers) => Ok(numbers),
    }
}

/// The numbers of a text; None where a word is none.
fn numbers_in<T: FromStr + Drop>(
    alloc: Global,
    bytes: &[u8],
) -> Result<Option<PgList<T>>, AllocError>
where
    <T as FromStr>::Err: Drop,
{
    let mut numbers = PgList::new(alloc);
    for word in bytes.split(|byte| *byte == b' ') {
        if !word.is_empty() {
            let Some(number) = number_of(word) else {
                return Ok(None);
            };
            numbers.push(number)?;
        }
    }
    Ok(Some(numbers))
}

/// The number of decimal digits.
fn number_of<T: FromStr>(word: &[u8]) -> Option<T>
where
    <T as FromStr>::Err: Drop,
{
    str::from_utf8(word).ok()?.parse::<T>().ok()
}
