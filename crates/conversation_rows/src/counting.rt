ghost use Rattle.std.specs.Prelude.{Some};

use pg_serve::MemorySink;
use pg_session::{Sink, SinkError};

/// A sink in memory that keeps how long each write was.
#[derive(Drop)]
pub struct CountingSink {
    pub sink: MemorySink,
    pub lengths: Vec<usize>,
    pub refused: u64,
}

impl Sink for CountingSink {
    ghost written = { λ s. Some s.sink.bytes };

    ghost faults = { λ s. s.sink.faults };

    ghost refused = { λ s. s.refused };

    ghost sent = { λ s. s.sink.sent };

    fn send(&mut self, bytes: &[u8]) -> Result<(), SinkError> {
        let answer = match self.lengths.push(bytes.len()) {
            Ok(()) => self.sink.send(bytes),
            Err(_) => Err(SinkError::NoMemory),
        };
        if answer.is_err() {
            self.refused = self.refused.saturating_add(1);
        }
        answer
    }
}
