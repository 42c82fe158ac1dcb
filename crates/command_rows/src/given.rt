//! What rows give: words, a relation file, an input, and where the output goes.

use pg_messages::{PgBytes, PgList, PgStr};
use pg_streams::{MemorySink, MemorySource};
use row_files::{Fault, hex_words, parsed, push_repeated};
use std::alloc::{AllocError, Global};

/// The words, split by spaces: `~` is a space within one, and `-` is no word.
pub fn words_of(alloc: Global, text: &str) -> Result<PgList<PgStr>, AllocError> {
    let mut words = PgList::new(alloc);
    if text == "-" {
        return Ok(words);
    }
    for word in text.split(" ") {
        words.push(word_of(alloc, word)?)?;
    }
    Ok(words)
}

/// A word, in which `~` is a space.
fn word_of(alloc: Global, text: &str) -> Result<PgStr, AllocError> {
    let mut word = String::new(alloc);
    for c in text.chars() {
        word.push(if c == '~' { ' ' } else { c })?;
    }
    PgStr::copy_of(alloc, word.as_str())
}

/// A file of this text, whose read of the number `fails` fails, unless that is `-`. `HEAD*N TEXT` is
/// HEAD, and then TEXT N times.
pub fn file_of<'t>(
    alloc: Global,
    text: &'t str,
    fails: &'t str,
) -> Result<MemorySource, Fault<'t>> {
    let bytes = bytes_of(alloc, text)?;
    source_of(alloc, bytes, fails)
}

/// An input of bytes in hexadecimal digits, whose read of the number `fails` fails, unless that is
/// `-`.
pub fn input_of<'t>(
    alloc: Global,
    digits: &'t str,
    fails: &'t str,
) -> Result<MemorySource, Fault<'t>> {
    let bytes = hex_words(alloc, digits)?;
    source_of(alloc, bytes, fails)
}

/// A source of bytes.
fn source_of<'t>(alloc: Global, bytes: Vec<u8>, fails: &'t str) -> Result<MemorySource, Fault<'t>> {
    let mut failures = PgList::new(alloc);
    if fails != "-" {
        failures.push(parsed(fails)?)?;
    }
    Ok(MemorySource::new(PgBytes::from_vec(bytes), PgList::new(alloc), failures))
}

/// The bytes of a text, or those of `HEAD*N TEXT`.
fn bytes_of<'t>(alloc: Global, text: &'t str) -> Result<Vec<u8>, Fault<'t>> {
    let mut bytes = Vec::new(alloc);
    match text.split_once("*") {
        None => push_repeated(alloc, &mut bytes, 1, text)?,
        Some((head, repeated)) => {
            let (times, tail) = repeated.split_once(" ").ok_or(Fault::Line(text))?;
            push_repeated(alloc, &mut bytes, 1, head)?;
            push_repeated(alloc, &mut bytes, parsed(times)?, tail)?;
        }
    }
    Ok(bytes)
}

/// A sink whose write of the number N, from 0, fails after K bytes, where `fails` is `N:K`. It is
/// the first write where `fails` is `K`, and none where it is `-`.
pub fn sink_of<'t>(alloc: Global, fails: &'t str) -> Result<MemorySink, Fault<'t>> {
    let mut failures = PgList::new(alloc);
    if fails != "-" {
        let (number, bytes) = fails.split_once(":").unwrap_or(("0", fails));
        failures.push((parsed(number)?, parsed(bytes)?))?;
    }
    Ok(MemorySink::new(alloc, failures))
}
