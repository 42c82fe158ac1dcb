//! What the program tells of an outcome: its status, and a line.

ghost use Rattle.std.specs.Prelude.{◌≤◌};
ghost use Rattle.pg_replay.specs.Statuses.{status_of, line_of};
ghost use Rattle.status_lines.specs.StatusLines.{IsReported};

use crate::outcome::Outcome;
use conversation_runs::Sink;
use status_lines::{OUT_OF_MEMORY, report_file, write_line};
use std::alloc::Global;

/// The line for words that are no order.
const USAGE: &str = "usage: pg_replay record FILE PID KEY, verify FILE\n";

/// Writes the line of an outcome, where it has one, and answers its status, or 7 where there is no
/// memory for the line or in the sink.
pub(crate) fn tell<E: Sink>(alloc: Global, outcome: &Outcome, err: &mut E) -> u8
    ensures reported { IsReported (status_of outcome.now) (line_of outcome.now) result
        (E.written err.old) (E.written err.new) (E.faults err.old) (E.faults err.new)
        (E.refused err.old) (E.refused err.new) }
    ensures never_falls { E.faults err.old ≤ E.faults err.new }
{
    match outcome {
        Outcome::Usage => write_line(2, USAGE, err),
        Outcome::File(error) => report_file(alloc, error, err),
        Outcome::Done => 0,
        Outcome::Differs => 20,
        Outcome::ReadFault => write_line(4, "read fault\n", err),
        Outcome::WriteFault => write_line(5, "write fault\n", err),
        Outcome::TurnLimit => write_line(6, "turn limit\n", err),
        Outcome::NoMemory => write_line(OUT_OF_MEMORY, "out of memory\n", err),
        Outcome::TooLong => write_line(21, "too long\n", err),
        Outcome::BadRecording => write_line(22, "bad recording\n", err),
    }
}
