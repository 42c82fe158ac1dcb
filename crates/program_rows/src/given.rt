//! What the lines of a row give: bytes, words, and where a file and a client come from.

use pg_messages::{PgBytes, PgList, PgStr};
use pg_serve::MemorySource;
use row_files::{
    Fault, number_told, parsed, push_hex, singles, told, told_by, unescaped, up_to_one,
};
use std::alloc::{AllocError, Global};

/// The bytes of words: each is a name that a line `bytes NAME ..` gives, or in hexadecimal.
pub fn message_bytes<'t>(
    alloc: Global,
    text: &'t str,
    words: &'t str,
) -> Result<Vec<u8>, Fault<'t>> {
    let mut bytes = Vec::new(alloc);
    for word in words.split_whitespace() {
        push_hex(&mut bytes, named(text, word).unwrap_or(word))?;
    }
    Ok(bytes)
}

/// What a line gives this name to.
fn named<'t>(text: &'t str, name: &str) -> Option<&'t str> {
    for line in text.lines() {
        if let Some(told) = told_by(line, "bytes")
            && let Some(digits) = told_by(told, name)
        {
            return Some(digits);
        }
    }
    None
}

/// The words, which stand apart by single spaces; `-` is no word.
pub fn words_of(alloc: Global, text: &str) -> Result<PgList<PgStr>, AllocError> {
    let mut words = PgList::new(alloc);
    if text != "-" {
        for word in text.split(" ") {
            words.push(PgStr::copy_of(alloc, word)?)?;
        }
    }
    Ok(words)
}

/// Where a command reads: a relation file, and a client.
#[derive(Drop)]
pub struct Sources {
    pub file: MemorySource,
    pub client: MemorySource,
}

/// The file and the client that the lines tell.
pub fn sources_of<'t>(
    alloc: Global,
    text: &'t str,
    lines: &[&'t str],
) -> Result<Sources, Fault<'t>> {
    Ok(Sources {
        file: file_of(alloc, lines)?,
        client: client_of(alloc, text, lines)?,
    })
}

/// The relation file.
fn file_of<'t>(alloc: Global, lines: &[&'t str]) -> Result<MemorySource, Fault<'t>> {
    let fails = number_told(lines, "file_fails")?;
    let bytes = unescaped(alloc, told(lines, "file").unwrap_or(""))?;
    source_of(alloc, bytes, told(lines, "file_reads"), fails)
}

/// The client's bytes.
fn client_of<'t>(
    alloc: Global,
    text: &'t str,
    lines: &[&'t str],
) -> Result<MemorySource, Fault<'t>> {
    let fails = number_told(lines, "client_fails")?;
    let bytes = message_bytes(alloc, text, told(lines, "client").unwrap_or(""))?;
    source_of(alloc, bytes, told(lines, "client_reads"), fails)
}

/// A source of these bytes, of which the call of this number fails.
fn source_of<'t>(
    alloc: Global,
    bytes: Vec<u8>,
    reads: Option<&'t str>,
    fails: Option<u64>,
) -> Result<MemorySource, Fault<'t>> {
    let pieces = PgList::from_vec(pieces_of(alloc, reads, bytes.len())?);
    let fails = PgList::from_vec(up_to_one(alloc, fails)?);
    Ok(MemorySource::new(PgBytes::from_vec(bytes), pieces, fails))
}

/// The most that each read gives: one byte where the word is `single`; the number of the word at
/// first; else all.
fn pieces_of<'t>(
    alloc: Global,
    reads: Option<&'t str>,
    len: usize,
) -> Result<Vec<usize>, Fault<'t>> {
    match reads {
        None => Ok(Vec::new(alloc)),
        Some("single") => Ok(singles(alloc, len)?),
        Some(word) => Ok(up_to_one(alloc, Some(parsed(word)?))?),
    }
}
