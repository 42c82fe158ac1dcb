//! Rows of the program over one client, as data on standard input: a row runs commands over memory,
//! one after another at one registry, and a line tells whether each ends as the row expects. The
//! head of `stdin` has the format.
#![tactic(auto)]

mod command;
mod given;
mod place;
mod sessions;
mod sink;
mod verdict;

use crate::sessions::judge_sessions;
use crate::verdict::judge_commands;
use row_files::{Fault, Tally, lines_of, name_of, told};
use std::alloc::Global;
use std::io;
use std::sync::Wait;

/// The words that lines begin with.
const WORDS: [&str; 24] = [
    "row",
    "define",
    "use",
    "live",
    "words",
    "session",
    "file",
    "file_reads",
    "file_fails",
    "client",
    "client_reads",
    "client_fails",
    "out_fails",
    "out_short",
    "err_fails",
    "err_short",
    "status",
    "err",
    "out",
    "out_text",
    "note",
    "calls",
    "free",
    "taken",
];

/// What differs from what a row expects, if anything does.
fn row_difference<'t, R: Wait>(
    rt: &R,
    alloc: Global,
    text: &'t str,
    block: &'t str,
) -> Result<Option<String>, Fault<'t>> {
    let mut found = String::new(alloc);
    judge_row(rt, alloc, text, block, &mut found)?;
    Ok(some_text(found))
}

fn some_text(text: String) -> Option<String> {
    if text.is_empty() { None } else { Some(text) }
}

/// Writes what differs from what a row expects.
fn judge_row<'t, R: Wait>(
    rt: &R,
    alloc: Global,
    text: &'t str,
    block: &'t str,
    found: &mut String,
) -> Result<(), Fault<'t>> {
    let lines = lines_of(alloc, text, block, &WORDS)?;
    match told(lines.as_slice(), "session") {
        None => judge_commands(rt, alloc, text, block, lines.as_slice(), found),
        Some(word) => judge_sessions(rt, alloc, text, lines.as_slice(), word, found),
    }
}

/// Judges each row, and prints a line for each and their number.
fn print_rows<R: Wait + Print>(rt: &R, alloc: Global, text: &str) -> io::Result<()> {
    let mut tally = Tally::new();
    for block in text.split("\n\n") {
        if let Some(name) = name_of(block, "row") {
            tally.tell(rt, name, row_difference(rt, alloc, text, block))?;
        }
    }
    tally.tell_count(rt)
}

fn main(rt: HostRuntime) -> io::Result<()> {
    let alloc = rt.alloc();
    let text = io::read_to_string(alloc, rt.reader())?;
    print_rows(&rt, alloc, text.as_str())
}
