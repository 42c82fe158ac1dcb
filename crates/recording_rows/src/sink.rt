//! Where the replies of a row go.

ghost use Rattle.std.specs.Prelude.{Some};

use conversation_runs::{Sink, SinkError};
use pg_messages::PgList;
use pg_streams::MemorySink;
use row_files::{Fault, parsed};
use std::alloc::Global;

/// A sink in memory, of which a call may fail, and a call may find no memory.
#[derive(Drop)]
pub struct RowSink {
    sink: MemorySink,
    calls: u64,
    refused: u64,
    short_at: Option<u64>,
}

impl Sink for RowSink {
    ghost written = { λ s. Some s.sink.bytes };

    ghost faults = { λ s. s.sink.faults };

    ghost refused = { λ s. s.refused };

    ghost sent = { λ s. s.sink.sent };

    fn send(&mut self, bytes: &[u8]) -> Result<(), SinkError> {
        let call = self.calls;
        self.calls = call.saturating_add(1);
        let answer = if self.short_at == Some(call) {
            Err(SinkError::NoMemory)
        } else {
            self.sink.send(bytes)
        };
        if answer.is_err() {
            self.refused = self.refused.saturating_add(1);
        }
        answer
    }
}

/// A sink whose write of the number N, from 0, fails after K bytes, where `refuses` is `N:K`; or
/// whose write of the number N finds no memory, where it is `N:short`. None does where it is `-`.
pub fn sink_of<'t>(alloc: Global, refuses: &'t str) -> Result<RowSink, Fault<'t>> {
    let mut failures = PgList::new(alloc);
    let mut short_at = None;
    if let Some((number, bytes)) = refuses.split_once(":") {
        let number = parsed::<u64>(number)?;
        if bytes == "short" {
            short_at = Some(number);
        } else {
            failures.push((number, parsed(bytes)?))?;
        }
    }
    Ok(RowSink {
        sink: MemorySink::new(alloc, failures),
        calls: 0,
        refused: 0,
        short_at,
    })
}
