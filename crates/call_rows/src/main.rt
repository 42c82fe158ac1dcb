//! Rows of the calls that a client's messages make of its handlers and of the registry, as data on
//! standard input: each client is served by handlers and a registry that note their calls, and a
//! line tells whether these are the ones that the row expects. The head of `stdin` has the format.
#![tactic(auto)]

mod answers;
mod calls;
mod desk;
mod parsing;
mod serving;

use crate::parsing::calls_of_parser;
use crate::serving::calls_of;
use row_files::{Fault, Judge, hex_words, judge_lines, part, unexpected};
use std::alloc::Global;
use std::io;

/// Judges rows of calls.
struct CallRows;

impl Judge for CallRows {
    fn difference<'t>(
        &self,
        alloc: Global,
        _text: &'t str,
        row: &'t str,
    ) -> Result<Option<String>, Fault<'t>> {
        let answer = answer_to(alloc, part(row, 1)?)?;
        Ok(unexpected(answer, part(row, 2)?.as_bytes()))
    }
}

/// The calls that come of a client's bytes, or of the parser's own.
fn answer_to<'t>(alloc: Global, given: &'t str) -> Result<String, Fault<'t>> {
    if given == "parser" {
        return Ok(calls_of_parser(alloc)?);
    }
    let client = hex_words(alloc, given)?;
    calls_of(alloc, client)
}

fn main(rt: HostRuntime) -> io::Result<()> {
    judge_lines(&rt, rt.alloc(), &CallRows)
}
