//! What a row tells.

use row_files::{Fault, hex_words, part, told_by};
use std::alloc::Global;

/// A conversation, and what is expected of it.
#[derive(Drop)]
pub struct Row<'t> {
    /// How it is served: options, split by semicolons.
    pub how: &'t str,
    /// The client's bytes.
    pub client: Vec<u8>,
    /// How the conversation ends.
    pub end: &'t str,
    /// The bytes of the replies.
    pub replies: Vec<u8>,
    /// The calls of the registry, in words.
    pub calls: &'t str,
}

impl<'t> Row<'t> {
    /// What the option of this name says, if there is one.
    pub fn option(&self, name: &str) -> Option<&'t str> {
        for option in self.how.split(";") {
            if let Some(rest) = told_by(option.trim(), name) {
                return Some(rest);
            }
        }
        None
    }
}

/// The row that a line tells.
pub fn row_of<'t>(alloc: Global, line: &'t str) -> Result<Row<'t>, Fault<'t>> {
    let how = part(line, 1)?;
    let end = part(line, 3)?;
    let calls = part(line, 5)?;
    let client = hex_words(alloc, part(line, 2)?)?;
    let replies = hex_words(alloc, part(line, 4)?)?;
    Ok(Row {
        how,
        client,
        end,
        replies,
        calls,
    })
}
