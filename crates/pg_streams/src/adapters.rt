//! A source over a reader and a sink over a writer: files and standard streams.

ghost use Rattle.std.specs.Prelude.{◌≡◌, None, length, OnOk, IsErrOf, IsTrue};
ghost use Rattle.std.specs.Io.KnownBytes.{ReadConsumes, Appends};
ghost use Rattle.conversation_runs.specs.Streams.{sent_after};
ghost use Rattle.pg_streams.specs.Counts.{CountsFaults, IsCountedRead};

use conversation_runs::{Sink, SinkError, Source, SourceFailed};
use std::io::{Read, Write};

/// A source over a reader, which is read once for each call. Its counts saturate at the greatest
/// `u64`.
#[derive(Drop)]
pub struct ReaderSource<R: Read> {
    /// Where the bytes come from.
    pub reader: R,
    /// How many reads gave at least one byte.
    pub reads: u64,
    /// How many reads failed.
    pub faults: u64,
}

impl<R: Read> Source for ReaderSource<R> {
    ghost left = { λ _. None };

    ghost reads = { λ s. s.reads };

    ghost faults = { λ s. s.faults };

    fn receive(&mut self, into: &mut [u8]) -> Result<usize, SourceFailed>
        // a read takes its bytes off those that are known of the reader
        ensures reader { ReadConsumes (R.remaining self.old.reader)
            (R.remaining self.new.reader) result into.new }
        ensures counted { IsCountedRead result (length into.old)
            self.old.reads self.new.reads self.old.faults self.new.faults }
    {
        match self.reader.read(into) {
            Ok(n) => {
                if n > 0 {
                    self.reads = self.reads.saturating_add(1);
                }
                Ok(n)
            }
            Err(_) => {
                self.faults = self.faults.saturating_add(1);
                Err(SourceFailed {})
            }
        }
    }
}

/// A sink over a writer, which is written to until it took all bytes, and then flushed. Its counts
/// saturate at the greatest `u64`.
#[derive(Drop)]
pub struct WriterSink<W: Write> {
    /// Where the bytes go.
    pub writer: W,
    /// How many calls failed.
    pub faults: u64,
    /// How many bytes the other calls had.
    pub sent: u64,
}

impl<W: Write> Sink for WriterSink<W> {
    ghost written = { λ _. None };

    ghost faults = { λ s. s.faults };

    // each error is a fault
    ghost refused = { λ s. s.faults };

    ghost sent = { λ s. s.sent };

    fn send(&mut self, bytes: &[u8]) -> Result<(), SinkError>
        // what is known of the writer's bytes grows by all of them
        ensures writer { OnOk result (Appends (W.contents self.old.writer)
            (W.contents self.new.writer) bytes.now) }
        ensures counted { CountsFaults result self.old.faults self.new.faults }
        ensures sent { self.new.sent ≡ sent_after result (length bytes.now) self.old.sent }
        ensures no_memory { IsErrOf result SinkError.NoMemory → ⊥ }
    {
        if write_whole(&mut self.writer, bytes) {
            self.sent = self.sent.saturating_add(bytes.len() as u64);
            Ok(())
        } else {
            self.faults = self.faults.saturating_add(1);
            Err(SinkError::Failed)
        }
    }
}

/// Writes all bytes and flushes, and returns whether both were done. A write that takes no byte
/// fails.
pub fn write_whole<W: Write>(writer: &mut W, bytes: &[u8]) -> bool
    ensures { IsTrue result → Appends (W.contents writer.old) (W.contents writer.new) bytes.now }
{
    let mut done = 0;
    while done < bytes.len() {
        match writer.write(&bytes[done..]) {
            Ok(0) => return false,
            Ok(n) => done += n,
            Err(_) => return false,
        }
    }
    writer.flush().is_ok()
}
