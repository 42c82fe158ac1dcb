//! What rows give: relations, a registry, and a client.

use built_in_relations::built_in_table;
use pg_handlers::ScriptDesk;
use pg_messages::{PgBytes, PgList, SecretKey};
use pg_streams::MemorySource;
use relation_handlers::{RelationTable, TableError};
use row_files::{Fault, hex_words, parsed, singles};
use std::alloc::{AllocError, Global};

/// The key of each client.
const KEY: [u8; 4] = [1, 2, 3, 4];

/// The built-in relations.
pub fn table_of<'t>(alloc: Global) -> Result<RelationTable, Fault<'t>> {
    match built_in_table(alloc) {
        Ok(table) => Ok(table),
        Err(TableError::NoMemory) => Err(Fault::NoMemory),
        Err(_) => Err(Fault::Line("a relation that is refused")),
    }
}

/// A registry that knows the client by the pid 7 and the key, and answers by this word: a `y` is
/// yes, and each other letter no.
pub fn desk_of<'t>(alloc: Global, answers: &'t str) -> Result<ScriptDesk, Fault<'t>> {
    let Ok(key) = SecretKey::try_new(alloc, &KEY) else {
        return Err(Fault::NoMemory);
    };
    Ok(ScriptDesk::new(alloc, 7, key, answers_of(alloc, answers)?))
}

/// The answers of the registry.
fn answers_of(alloc: Global, word: &str) -> Result<PgList<bool>, AllocError> {
    let mut answers = PgList::new(alloc);
    for letter in word.chars() {
        answers.push(letter == 'y')?;
    }
    Ok(answers)
}

/// A client that sends the bytes of these digits. Its reads are `whole`, or `single` bytes, or the
/// first one gives as many bytes as the number says. The read of the number `fails` fails, from 0,
/// unless that is `-`.
pub fn source_of<'t>(
    alloc: Global,
    reads: &'t str,
    fails: &'t str,
    digits: &'t str,
) -> Result<MemorySource, Fault<'t>> {
    let bytes = hex_words(alloc, digits)?;
    let pieces = pieces_of(alloc, reads, bytes.len())?;
    let mut failures = PgList::new(alloc);
    if fails != "-" {
        failures.push(parsed(fails)?)?;
    }
    Ok(MemorySource::new(PgBytes::from_vec(bytes), PgList::from_vec(pieces), failures))
}

/// What each read gives at most, of so many bytes.
fn pieces_of<'t>(alloc: Global, reads: &'t str, len: usize) -> Result<Vec<usize>, Fault<'t>> {
    let mut pieces = Vec::new(alloc);
    match reads {
        "whole" => {}
        "single" => pieces = singles(alloc, len)?,
        first => pieces.push(parsed(first)?)?,
    }
    Ok(pieces)
}
