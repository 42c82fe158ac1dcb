//! Rows of relation files and of generated loads, as data on standard input: each file is read and
//! each load is made, and a line tells whether the answer is the one that the row expects. The head
//! of `stdin` has the format.
#![tactic(auto)]

mod given;
mod loads;
mod told;

use crate::given::{file_of, push_repeats};
use crate::loads::load_answer;
use crate::told::told_answer;
use relation_files::read_relations;
use row_files::{Fault, Judge, judge_lines, part, unexpected};
use std::alloc::Global;
use std::io;

/// Judges rows of relation files and of generated loads.
struct RelationRows;

impl Judge for RelationRows {
    fn difference<'t>(
        &self,
        alloc: Global,
        _text: &'t str,
        row: &'t str,
    ) -> Result<Option<String>, Fault<'t>> {
        let mut expected = Vec::new(alloc);
        push_repeats(alloc, &mut expected, part(row, 3)?)?;
        let answer = answer_of(alloc, row)?;
        Ok(unexpected(answer, expected.as_slice()))
    }
}

/// The answer to what a row asks.
fn answer_of<'t>(alloc: Global, row: &'t str) -> Result<String, Fault<'t>> {
    match part(row, 1)? {
        "file" => file_answer(alloc, row),
        "load" => load_answer(alloc, part(row, 2)?),
        asked => Err(Fault::Line(asked)),
    }
}

/// The answer to a row's file.
fn file_answer<'t>(alloc: Global, row: &'t str) -> Result<String, Fault<'t>> {
    let mut file = file_of(alloc, row)?;
    let answer = read_relations(alloc, &mut file);
    Ok(told_answer(alloc, &answer)?)
}

fn main(rt: HostRuntime) -> io::Result<()> {
    judge_lines(&rt, rt.alloc(), &RelationRows)
}
