//! Rows of conversations, as data on standard input: each is served over relations or by handlers
//! that the row names. A line tells whether its replies, its end and its registry calls are the
//! ones that the row expects. The head of `stdin` has the format.
#![tactic(auto)]

mod cases;
mod counting;
mod finding;
mod fronts;
mod handlers;
mod message;
mod reading;
mod relations;
mod script;
mod serving;
mod sweeps;
mod told;
mod verdict;

use crate::finding::told_finding;
use crate::sweeps::judge;
use row_files::{Fault, Judge, judge_blocks, lines_of};
use std::alloc::Global;
use std::io;

/// The words that lines begin with.
const WORDS: [&str; 22] = [
    "row",
    "define",
    "client",
    "reply",
    "call",
    "key",
    "end",
    "reads",
    "turns",
    "answers",
    "read_fails",
    "write_fails",
    "desk_fails",
    "written",
    "prefix",
    "writes",
    "relation",
    "rows",
    "handlers",
    "read_back",
    "sweep",
    "amounts",
];

/// Judges rows of conversations.
struct ConversationRows;

impl Judge for ConversationRows {
    fn difference<'t>(
        &self,
        alloc: Global,
        text: &'t str,
        row: &'t str,
    ) -> Result<Option<String>, Fault<'t>> {
        let lines = lines_of(alloc, text, row, &WORDS)?;
        difference_told(alloc, lines.as_slice())
    }
}

/// What differs from what the lines expect, if anything does.
fn difference_told<'t>(alloc: Global, lines: &[&'t str]) -> Result<Option<String>, Fault<'t>> {
    match judge(alloc, lines)? {
        None => Ok(None),
        Some(finding) => told_finding(alloc, finding),
    }
}

fn main(rt: HostRuntime) -> io::Result<()> {
    judge_blocks(&rt, rt.alloc(), &ConversationRows)
}
