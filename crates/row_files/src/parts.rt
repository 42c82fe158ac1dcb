//! The parts of a row, its numbers and what it expects.

ghost use Rattle.std.specs.Prelude.{◌≡◌, MatchOption, string_bytes, ◌≤◌, length};

use crate::fault::Fault;
use std::str::FromStr;

/// The part of a row with this place, from 0, without the whitespace round it. Bars split the
/// parts.
pub fn part<'t>(row: &'t str, place: usize) -> Result<&'t str, Fault<'t>> {
    match row.split("|").nth(place) {
        Some(part) => Ok(part.trim()),
        None => Err(Fault::Line(row)),
    }
}

/// A row's name, which stands before its first bar. Spaces round that bar count for nothing where
/// one stands behind it.
pub(crate) fn row_name(row: &str) -> &str {
    let (name, rest) = row.split_once("|").unwrap_or((row, ""));
    if rest.starts_with(" ") {
        name.trim()
    } else {
        name
    }
}

/// What stands before the first bar, and behind it.
pub fn next_part<'t>(row: &'t str) -> Result<(&'t str, &'t str), Fault<'t>> {
    row.split_once("|").ok_or(Fault::Line(row))
}

/// What stands before the last bar, and behind it.
pub fn last_part<'t>(row: &'t str) -> Result<(&'t str, &'t str), Fault<'t>> {
    row.rsplit_once("|").ok_or(Fault::Line(row))
}

/// The value that a word writes.
pub fn parsed<'t, T: FromStr>(word: &'t str) -> Result<T, Fault<'t>>
where
    <T as FromStr>::Err: Drop,
{
    match word.parse::<T>() {
        Ok(value) => Ok(value),
        Err(_) => Err(Fault::Line(word)),
    }
}

/// Three numbers that spaces split: months, days and microseconds.
pub fn three_numbers<'t>(text: &'t str) -> Result<(i32, i32, i64), Fault<'t>> {
    if text.split_whitespace().count() > 3 {
        return Err(Fault::Line(text));
    }
    Ok((
        number_at(text, 0)?,
        number_at(text, 1)?,
        number_at(text, 2)?,
    ))
}

/// The number that the word with this place writes, from 0.
fn number_at<'t, T: FromStr>(text: &'t str, place: usize) -> Result<T, Fault<'t>>
where
    <T as FromStr>::Err: Drop,
{
    parsed(text.split_whitespace().nth(place).unwrap_or(""))
}

/// The number and the rest of a word that is a number, `*` and a rest. For any other word, 1 and the
/// word.
pub fn times_and_rest(word: &str) -> (u32, &str) {
    match word.split_once("*") {
        Some((count, rest)) => match count.parse::<u32>() {
            Ok(times) => (times, rest),
            Err(_) => (1, word),
        },
        None => (1, word),
    }
}

/// The answer, where it isn't the one that a row expects.
pub fn unexpected(answer: String, expected: &[u8]) -> Option<String>
    ensures { MatchOption result (string_bytes answer ≡ expected.now)
        (λ told. (told ≡ answer) × ¬ (string_bytes answer ≡ expected.now)) }
{
    if answer.as_bytes() == expected {
        None
    } else {
        Some(answer)
    }
}

/// How many bytes are equal at the front of both.
pub fn common_len(one: &[u8], other: &[u8]) -> usize {
    let mut len = 0usize;
    for (a, b) in one.iter().zip(other.iter()) {
        if *a != *b {
            return len;
        }
        len = len.saturating_add(1);
    }
    len
}
