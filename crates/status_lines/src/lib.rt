//! How programs report an outcome: by a status, and by a line on their error output.
#![tactic(auto)]

ghost use Rattle.std.specs.Prelude.{◌≡◌, ◌≢◌, [], string_bytes, IfOk};
ghost use Rattle.status_lines.specs.StatusLines.{status_of_conversation, status_of_file, line_of_conversation, line_of_file, bad_line, reason_text, Reports};

use conversation_runs::{ServeError, Sink, SinkError};
use pg_client::EndKind;
use relation_files::{FileError, LineReason};
use std::alloc::{AllocError, Global};

/// The status where memory ran out.
pub const OUT_OF_MEMORY: u8 = 7;

/// Writes the line of a relation file that was refused, and answers its status: 3 where the file is
/// too long or a line of it is bad, 9 where a read failed, 7 where memory ran out, also for the
/// line or in the sink.
pub fn report_file<E: Sink>(alloc: Global, error: &FileError, err: &mut E) -> u8
    ensures { Reports (status_of_file error.now) (line_of_file error.now) result
        (E.written err.old) (E.written err.new) (E.faults err.old) (E.faults err.new)
        (E.refused err.old) (E.refused err.new) }
{
    match error {
        FileError::BadLine(number, reason) => match bad_line(alloc, *number, reason) {
            Ok(line) => write_line(3, line.as_str(), err),
            Err(AllocError) => OUT_OF_MEMORY,
        },
        FileError::TooLong => write_line(3, "file too long\n", err),
        FileError::FileFault => write_line(9, "file fault\n", err),
        FileError::NoMemory => write_line(OUT_OF_MEMORY, "out of memory\n", err),
    }
}

/// The line that tells what is wrong with a line of a relation file.
fn bad_line(alloc: Global, number: u64, reason: &LineReason) -> Result<String, AllocError>
    ensures { IfOk result (λ line. string_bytes line ≡ bad_line number reason.now) }
{
    let text = reason_text(reason);
    let line = format!(in alloc; "line {number}: {text}\n")?;
    Ok(line)
}

/// The word for what is wrong with a line.
fn reason_text(reason: &LineReason) -> &'static str
    ensures { result.now ≡ reason_text reason.now }
{
    match reason {
        LineReason::Text => "text",
        LineReason::Header => "header",
        LineReason::Name => "name",
        LineReason::Column => "column",
        LineReason::Width => "width",
        LineReason::Cell(_) => "cell",
    }
}

/// Writes the line of a conversation's answer, where it has one, and answers its status: 0 at a
/// good end, 10 at a bad frame, 11 at a fatal error, 4, 5 and 6 where a read failed, a write failed
/// or the turns were spent, 7 where memory ran out, also in the sink.
pub fn report_conversation<E: Sink>(answer: Result<EndKind, ServeError>, err: &mut E) -> u8
    ensures { Reports (status_of_conversation answer) (line_of_conversation answer) result
        (E.written err.old) (E.written err.new) (E.faults err.old) (E.faults err.new)
        (E.refused err.old) (E.refused err.new) }
{
    match answer {
        Ok(EndKind::Terminate) | Ok(EndKind::InputEnd) | Ok(EndKind::CancelServed) => 0,
        Ok(EndKind::BadFrame) => write_line(10, "bad frame\n", err),
        Ok(EndKind::Fatal) => write_line(11, "fatal\n", err),
        Err(ServeError::ReadFault) => write_line(4, "read fault\n", err),
        Err(ServeError::WriteFault) => write_line(5, "write fault\n", err),
        Err(ServeError::TurnLimit) => write_line(6, "turn limit\n", err),
        Err(ServeError::NoMemory) => write_line(OUT_OF_MEMORY, "out of memory\n", err),
    }
}

/// Writes a line, and answers this status, or 7 where the sink finds no memory. After a write that
/// failed, a front of the line was written, and the status is the same.
pub fn write_line<E: Sink>(status: u8, line: &str, err: &mut E) -> u8
    requires { line.now ≢ [] }
    ensures { Reports status line.now result (E.written err.old) (E.written err.new)
        (E.faults err.old) (E.faults err.new)
        (E.refused err.old) (E.refused err.new) }
{
    match err.send(line.as_bytes()) {
        Ok(()) | Err(SinkError::Failed) => status,
        Err(SinkError::NoMemory) => OUT_OF_MEMORY,
    }
}
