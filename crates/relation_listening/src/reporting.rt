//! What a program that listened tells of how that ended.

ghost use Rattle.std.specs.Prelude.{◌≡◌, [], ◌∷◌};
ghost use Rattle.relation_listening.specs.Reports.{line_of_listening, status_of_listening};
ghost use Rattle.status_lines.specs.Counts.{CountsNeverFall};
ghost use Rattle.status_lines.specs.StatusLines.{IsReported};

use client_listening::ListenError;
use conversation_runs::Sink;
use status_lines::{OUT_OF_MEMORY, write_line};

/// Writes the line of why a server stopped listening, where it has one, and answers its status: 0
/// where all clients were taken in, 12 where the place couldn't be bound or a connection couldn't be
/// accepted, 13 where a thread couldn't be started, 8 where the pid is taken, 7 where memory ran out,
/// also in the sink.
pub fn report_listened<E: Sink>(answer: Result<u64, ListenError>, err: &mut E) -> u8
    ensures reported { IsReported (status_of_listening answer) (line_of_listening answer) result
        (E.written err.old) (E.written err.new) (E.faults err.old) (E.faults err.new)
        (E.refused err.old) (E.refused err.new) }
    ensures never_falls { CountsNeverFall (E.faults err.old ∷ []) (E.faults err.new ∷ []) }
{
    match answer {
        Ok(_) => 0,
        Err(ListenError::AcceptFault) => write_line(12, "accept fault\n", err),
        Err(ListenError::SpawnFault) => write_line(13, "spawn fault\n", err),
        Err(ListenError::PidTaken(_)) => write_line(8, "pid is taken\n", err),
        Err(ListenError::NoMemory) => write_line(OUT_OF_MEMORY, "out of memory\n", err),
    }
}
