//! Rows of sessions that are served and recorded, as data on standard input: each client is served
//! over the built-in relations and recorded, and a line tells whether both answers are those that
//! the row expects. The head of `stdin` has the format.
#![tactic(auto)]

mod given;
mod sink;
mod telling;

use crate::given::{desk_of, source_of, table_of};
use crate::sink::sink_of;
use crate::telling::answers_told;
use row_files::{Fault, Judge, judge_lines, parsed, part, unexpected};
use session_recording::record_session;
use std::alloc::Global;
use std::io;

/// Judges rows of recorded sessions.
struct RecordingRows;

impl Judge for RecordingRows {
    fn difference<'t>(
        &self,
        alloc: Global,
        _text: &'t str,
        row: &'t str,
    ) -> Result<Option<String>, Fault<'t>> {
        let answers = answers_to(alloc, row)?;
        Ok(unexpected(answers, part(row, 8)?.as_bytes()))
    }
}

/// Serves and records the client of a row, and tells both answers.
fn answers_to<'t>(alloc: Global, row: &'t str) -> Result<String, Fault<'t>> {
    let room = parsed(part(row, 1)?)?;
    let turns = parsed(part(row, 2)?)?;
    let table = table_of(alloc)?;
    let mut desk = desk_of(alloc, part(row, 3)?)?;
    let mut source = source_of(alloc, part(row, 4)?, part(row, 5)?, part(row, 7)?)?;
    let mut sink = sink_of(alloc, part(row, 6)?)?;
    let (answer, recorded) = record_session(
        alloc,
        &table,
        &mut desk,
        &mut source,
        &mut sink,
        turns,
        room,
    );
    Ok(answers_told(alloc, answer, &recorded)?)
}

fn main(rt: HostRuntime) -> io::Result<()> {
    judge_lines(&rt, rt.alloc(), &RecordingRows)
}
