//! Rows of what the programs read beside the messages of a conversation: the words of the server's
//! command line, recordings, and commands of cursors; and rows of rotas. They are data on standard
//! input; each is judged, and a line tells whether the answer is the one that the row expects. The
//! head of `stdin` has the format.
#![tactic(auto)]

mod cursors;
mod given;
mod orders;
mod recordings;
mod rotas;

use crate::cursors::{command_answer, replies_answer};
use crate::orders::order_answer;
use crate::recordings::{fronts_answer, recording_answer};
use crate::rotas::rota_answer;
use row_files::{Fault, Judge, judge_lines, last_part, next_part, unexpected};
use std::alloc::Global;
use std::io;

/// Judges rows of words, recordings, commands and rotas.
struct WordRows;

impl Judge for WordRows {
    fn difference<'t>(
        &self,
        alloc: Global,
        _text: &'t str,
        row: &'t str,
    ) -> Result<Option<String>, Fault<'t>> {
        let (parts, expected) = last_part(row)?;
        let (_name, parts) = next_part(parts)?;
        let (asked, given) = next_part(parts)?;
        let answer = answer_of(alloc, asked.trim(), given)?;
        Ok(unexpected(answer, expected.trim().as_bytes()))
    }
}

/// The answer to what a row asks of what it gives.
fn answer_of<'t>(alloc: Global, asked: &'t str, given: &'t str) -> Result<String, Fault<'t>> {
    match asked {
        "order" => Ok(order_answer(alloc, given)?),
        "recording" => recording_answer(alloc, given),
        "fronts" => fronts_answer(alloc, given),
        "command" => command_answer(alloc, given),
        "replies" => replies_answer(alloc, given),
        _ => rota_answer(alloc, asked, given),
    }
}

fn main(rt: HostRuntime) -> io::Result<()> {
    judge_lines(&rt, rt.alloc(), &WordRows)
}
