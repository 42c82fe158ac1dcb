//! A source over a reader and a sink over a writer, which give and take in part, and fail.

ghost use Rattle.std.specs.Prelude.{◌≤◌, ◌<◌, length, IfOk};

use pg_serve::{ReaderSource, WriterSink};
use pg_session::{Sink, SinkError, Source};
use std::io;
use std::io::{Read, Write};

/// A reader and writer that gives and takes at most `takes` bytes at a time, and whose call of the
/// number `fails_at` fails.
#[derive(Drop)]
struct Narrow {
    calls: usize,
    fails_at: usize,
    takes: usize,
}

impl Narrow {
    fn answer(&mut self, room: usize) -> io::Result<usize>
        ensures { IfOk result (λ n. n ≤ room) }
    {
        let call = self.calls;
        self.calls = call.saturating_add(1);
        if call == self.fails_at {
            return Err(io::Error::from(io::ErrorKind::BrokenPipe));
        }
        Ok(self.takes.min(room))
    }
}

impl Read for Narrow {
    fn read(&mut self, buf: &mut [u8]) -> io::Result<usize> {
        self.answer(buf.len())
    }
}

impl Write for Narrow {
    fn write(&mut self, buf: &[u8]) -> io::Result<usize> {
        self.answer(buf.len())
    }

    fn flush(&mut self) -> io::Result<()> {
        self.answer(0)?;
        Ok(())
    }
}

/// What a read of five bytes answers, and how many reads, faults and calls of the reader there were
/// then.
fn read(source: &mut ReaderSource<Narrow>) -> (Option<usize>, u64, u64, usize) {
    let answer = source.receive(&mut [0u8; 5]).ok();
    (answer, source.reads, source.faults, source.reader.calls)
}

/// A read that fails is counted, and not made again.
#[test]
fn a_source_over_a_reader_counts_faults(rt: HostRuntime) {
    let reader = Narrow {
        calls: 0,
        fails_at: 1,
        takes: 2,
    };
    let mut source = ReaderSource {
        reader,
        reads: 0,
        faults: 0,
    };
    let told = [read(&mut source), read(&mut source), read(&mut source)];
    assert!(rt; told == [(Some(2), 1, 0, 1), (None, 1, 1, 2), (Some(2), 2, 1, 3)]);
}

/// What is answered where five bytes are sent, and how many calls of the writer, faults and bytes
/// that were sent there were then.
fn written(fails_at: usize, takes: usize) -> (Result<(), SinkError>, usize, u64, u64) {
    let writer = Narrow {
        calls: 0,
        fails_at,
        takes,
    };
    let mut sink = WriterSink {
        writer,
        faults: 0,
        sent: 0,
    };
    let answer = sink.send(b"hello");
    (answer, sink.writer.calls, sink.faults, sink.sent)
}

/// Five bytes take three writes and a flush. After a call that fails, or takes nothing, no other is
/// made.
#[test]
fn a_sink_over_a_writer_counts_faults(rt: HostRuntime) {
    let fault = Err(SinkError::Failed);
    let told = [written(9, 2), written(1, 2), written(3, 2), written(9, 0)];
    assert!(rt; told[0] == (Ok(()), 4, 0, 5) && told[1] == (fault, 2, 1, 0));
    assert!(rt; told[2] == (fault, 4, 1, 0) && told[3] == (fault, 1, 1, 0));
}
