//! Where a row's output goes.

ghost use Rattle.std.specs.Prelude.{Some};

use conversation_runs::{Sink, SinkError};
use pg_messages::PgList;
use pg_serve::MemorySink;
use row_files::{Fault, number_told, parsed, told, up_to_one};
use std::alloc::Global;

/// A sink in memory, of which a call may fail, and a call may find no memory.
#[derive(Drop)]
pub struct RowSink {
    sink: MemorySink,
    calls: u64,
    refused: u64,
    short_at: Option<u64>,
}

impl RowSink {
    /// A sink with failures, each of which is the number of a call and how many bytes it takes. The
    /// call of the number `short_at` finds no memory.
    pub fn new(alloc: Global, failures: PgList<(u64, usize)>, short_at: Option<u64>) -> RowSink {
        RowSink {
            sink: MemorySink::new(alloc, failures),
            calls: 0,
            refused: 0,
            short_at,
        }
    }

    /// What was written.
    pub fn bytes(&self) -> &[u8] {
        self.sink.bytes()
    }
}

impl Sink for RowSink {
    ghost written = { λ s. Some s.sink.bytes };

    ghost faults = { λ s. s.sink.faults };

    ghost refused = { λ s. s.refused };

    ghost sent = { λ s. s.sink.sent };

    fn send(&mut self, bytes: &[u8]) -> Result<(), SinkError> {
        let call = self.calls;
        self.calls = call.saturating_add(1);
        let answer = if self.short_at == Some(call) {
            Err(SinkError::NoMemory)
        } else {
            self.sink.send(bytes)
        };
        if answer.is_err() {
            self.refused = self.refused.saturating_add(1);
        }
        answer
    }
}

/// Where a command writes: its output, and the line of errors.
#[derive(Drop)]
pub struct Sinks {
    pub out: RowSink,
    pub err: RowSink,
}

/// The sinks that the lines tell.
pub fn sinks_of<'t>(alloc: Global, lines: &[&'t str]) -> Result<Sinks, Fault<'t>> {
    Ok(Sinks {
        out: sink_of(alloc, lines, "out_fails", "out_short")?,
        err: sink_of(alloc, lines, "err_fails", "err_short")?,
    })
}

/// A sink of which a call fails, if a line with the word `fails` tells one with its bytes, and of
/// which a call finds no memory, if a line with the word `short` tells one.
fn sink_of<'t>(
    alloc: Global,
    lines: &[&'t str],
    fails: &str,
    short: &str,
) -> Result<RowSink, Fault<'t>> {
    let failure = failure_of(told(lines, fails))?;
    let short_at = number_told(lines, short)?;
    let failures = PgList::from_vec(up_to_one(alloc, failure)?);
    Ok(RowSink::new(alloc, failures, short_at))
}

/// The number of a call, and how many bytes it takes.
fn failure_of<'t>(words: Option<&'t str>) -> Result<Option<(u64, usize)>, Fault<'t>> {
    let Some(words) = words else {
        return Ok(None);
    };
    let (call, bytes) = words.split_once(" ").unwrap_or((words, ""));
    let call = parsed::<u64>(call)?;
    let bytes = parsed::<usize>(bytes)?;
    Ok(Some((call, bytes)))
}
