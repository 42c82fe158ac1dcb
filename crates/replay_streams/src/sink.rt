//! A sink in memory.

ghost use Rattle.std.specs.Prelude.{Some, min, length};
ghost use Rattle.conversation_runs.specs.Streams.{greatest_count};

use conversation_runs::{Sink, SinkError};

/// A sink that keeps what is written. It never fails but for want of memory, and then takes nothing.
#[derive(Drop)]
pub struct BytesSink {
    /// All that was written.
    pub bytes: Vec<u8>,
    /// How many sends found no memory. The count stands still at the greatest `u64`.
    pub refused: u64,
}

impl Sink for BytesSink {
    ghost written = { λ s. Some s.bytes.items };

    ghost faults = { λ _. 0 };

    ghost refused = { λ s. s.refused };

    // it keeps all that was sent, and nothing else
    ghost sent = { λ s. min (length s.bytes.items) greatest_count };

    fn send(&mut self, bytes: &[u8]) -> Result<(), SinkError> {
        match self.bytes.extend_from_slice(bytes) {
            Ok(()) => Ok(()),
            Err(_) => {
                self.refused = self.refused.saturating_add(1);
                Err(SinkError::NoMemory)
            }
        }
    }
}
