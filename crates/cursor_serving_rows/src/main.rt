//! Rows of conversations with cursors, as data on standard input: each is served over the sample
//! relations, and a line tells whether its replies, its end and its registry calls are the ones that
//! the row expects. The head of `stdin` has the format.
#![tactic(auto)]

use cursor_judging::{CursorRows, Ending, Serving};
use cursor_serving::serve_cursors_on;
use pg_handlers::ScriptDesk;
use pg_streams::{MemorySink, MemorySource};
use relation_serving::built_in_table;
use row_files::{Fault, judge_lines};
use std::alloc::Global;
use std::io;

/// The sample relations.
#[derive(Drop)]
struct BuiltIn;

impl Serving for BuiltIn {
    fn serve<'t>(
        &self,
        alloc: Global,
        desk: &mut ScriptDesk,
        source: &mut MemorySource,
        sink: &mut MemorySink,
        turns: u64,
    ) -> Result<Ending, Fault<'t>> {
        match built_in_table(alloc) {
            Ok(relations) => Ok(serve_cursors_on(alloc, desk, &relations, source, sink, turns)),
            Err(_) => Err(Fault::NoMemory),
        }
    }
}

fn main(rt: HostRuntime) -> io::Result<()> {
    judge_lines(&rt, rt.alloc(), &CursorRows { serving: BuiltIn })
}
