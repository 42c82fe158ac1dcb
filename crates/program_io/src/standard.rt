//! The standard streams, as sources and sinks with which nothing was done yet.

ghost use Rattle.std.specs.Prelude.{◌≡◌};

use pg_streams::{ReaderSource, WriterSink};
use std::io::{Input, Write};

/// The standard input.
pub fn standard_input<R: Input>(rt: &R) -> ReaderSource<R::Reader>
    ensures unread { (result.reads ≡ 0) × (result.faults ≡ 0) }
{
    ReaderSource {
        reader: rt.reader(),
        reads: 0,
        faults: 0,
    }
}

/// A sink over a writer, such as the standard output or the error output.
pub fn sink_over<W: Write>(writer: W) -> WriterSink<W>
    ensures { result ≡ record { writer = writer; faults = 0; sent = 0 } }
{
    WriterSink {
        writer,
        faults: 0,
        sent: 0,
    }
}
