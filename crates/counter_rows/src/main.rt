//! Rows of conversations with a counter, as data on standard input: each is served from the number 0
//! on, and a line tells whether its replies, its end and its registry calls are the ones that the row
//! expects. The head of `stdin` has the format.
#![tactic(auto)]

mod counters;

use crate::counters::Counters;
use client_services::Service;
use cursor_judging::{CursorRows, Ending, Serving};
use moving_services::MovingService;
use pg_handlers::ScriptDesk;
use pg_streams::{MemorySink, MemorySource};
use row_files::{Fault, judge_lines};
use std::alloc::Global;
use std::io;

/// A service whose clients have a counter each, which begins at 0.
#[derive(Drop)]
struct CounterService {
    service: MovingService<Counters>,
}

impl Serving for CounterService {
    fn serve<'t>(
        &self,
        alloc: Global,
        desk: &mut ScriptDesk,
        source: &mut MemorySource,
        sink: &mut MemorySink,
        turns: u64,
    ) -> Result<Ending, Fault<'t>> {
        Ok(self.service.serve(alloc, desk, source, sink, turns))
    }
}

fn main(rt: HostRuntime) -> io::Result<()> {
    let service = MovingService {
        clients: Counters { first: 0 },
    };
    let serving = CounterService { service };
    judge_lines(&rt, rt.alloc(), &CursorRows { serving })
}
