//! Rows of the programs rota_report, pg_replay and pg_cursor, as data on standard input. Each row runs
//! its program over memory, and a line tells whether the program ends as the row expects. The head of
//! `stdin` has the format.
#![tactic(auto)]

mod answers;
mod given;
mod running;

use crate::answers::answer_of;
use row_files::{Fault, Judge, judge_lines, last_part, next_part, unexpected};
use std::alloc::Global;
use std::io;

/// Judges rows of both programs.
struct CommandRows;

impl Judge for CommandRows {
    fn difference<'t>(
        &self,
        alloc: Global,
        _text: &'t str,
        row: &'t str,
    ) -> Result<Option<String>, Fault<'t>> {
        let (given, expected) = last_part(row)?;
        let (_name, given) = next_part(given)?;
        let answer = answer_of(alloc, given)?;
        Ok(unexpected(answer, expected.as_bytes()))
    }
}

fn main(rt: HostRuntime) -> io::Result<()> {
    judge_lines(&rt, rt.alloc(), &CommandRows)
}
