//! Which commands queries are, and what becomes of the replies to them.

use cursor_commands::{CursorCommand, new_replies, read_cursor};
use pg_outbox::Outbox;
use row_files::{Fault, hex_words, next_part, push_digits, unescaped};
use std::alloc::{AllocError, Global};

/// The command that a query is: `declare NAME RELATION`, `fetch LIMIT NAME`, `close NAME`; `none`
/// where it is none.
pub fn command_answer<'t>(alloc: Global, given: &'t str) -> Result<String, Fault<'t>> {
    let query = query_of(alloc, given)?;
    Ok(command_told(alloc, query.as_str())?)
}

/// What a query's command makes of the replies to its messages, in hexadecimal digits.
pub fn replies_answer<'t>(alloc: Global, given: &'t str) -> Result<String, Fault<'t>> {
    let (query, words) = next_part(given)?;
    let replies = hex_words(alloc, words)?;
    match query_replied(alloc, query, replies.as_slice())? {
        None => Err(Fault::Line(query)),
        Some(digits) => Ok(digits),
    }
}

/// The query of a row, without the whitespace round it.
fn query_of<'t>(alloc: Global, given: &'t str) -> Result<String, Fault<'t>> {
    let bytes = unescaped(alloc, given.trim())?;
    match str::from_utf8(bytes.as_slice()) {
        Ok(query) => Ok(String::from_str(alloc, query)?),
        Err(_) => Err(Fault::Line(given)),
    }
}

/// The command that a query is, as a line.
fn command_told(alloc: Global, query: &str) -> Result<String, AllocError> {
    match read_cursor(alloc, query)? {
        None => String::from_str(alloc, "none"),
        Some(command) => command_text(alloc, &command),
    }
}

/// The text of a command.
fn command_text(alloc: Global, command: &CursorCommand) -> Result<String, AllocError> {
    match command {
        CursorCommand::Declare(name, relation) => {
            let (name, relation) = (name.as_str(), relation.as_str());
            format!(in alloc; "declare {name} {relation}")
        }
        CursorCommand::Fetch(limit, name) => {
            let name = name.as_str();
            format!(in alloc; "fetch {limit} {name}")
        }
        CursorCommand::Close(name) => {
            let name = name.as_str();
            format!(in alloc; "close {name}")
        }
    }
}

/// What the command of a row's query makes of replies; None where the query is no command.
fn query_replied<'t>(
    alloc: Global,
    given: &'t str,
    replies: &[u8],
) -> Result<Option<String>, Fault<'t>> {
    let query = query_of(alloc, given)?;
    Ok(replied(alloc, query.as_str(), replies)?)
}

/// What a query's command makes of replies; None where it is no command.
fn replied(alloc: Global, query: &str, replies: &[u8]) -> Result<Option<String>, AllocError> {
    match read_cursor(alloc, query)? {
        None => Ok(None),
        Some(command) => Ok(Some(digits_of(alloc, &command, replies)?)),
    }
}

/// What a command makes of replies, in hexadecimal digits.
fn digits_of(alloc: Global, command: &CursorCommand, replies: &[u8]) -> Result<String, AllocError> {
    let mut outbox = Outbox::new(alloc)?;
    outbox.push_bytes(replies)?;
    let new = new_replies(alloc, command, &outbox)?;
    let mut digits = String::new(alloc);
    push_digits(&mut digits, &replies[..replies.len().min(new.kept)])?;
    push_digits(&mut digits, new.behind.as_slice())?;
    Ok(digits)
}
