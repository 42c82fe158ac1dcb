//! What the program tells of an order: its status, and a line.

ghost use Rattle.status_lines.specs.StatusLines.{Reports};
ghost use Rattle.rota_report.specs.Statuses.{status_of, line_of};

use crate::failure::Failure;
use conversation_runs::Sink;
use status_lines::{OUT_OF_MEMORY, report_file, write_line};
use std::alloc::Global;

/// The line for words that are no order.
const USAGE: &str =
    "usage: rota_report lines FILE RELATION COLUMN START STYLE, clashes FILE RELATION COLUMN START RELATION COLUMN START\n";

/// Writes the line of an order's answer, where it has one, and answers its status, or 7 where there
/// is no memory for the line or in the sink.
pub(crate) fn tell<E: Sink>(alloc: Global, answer: &Result<(), Failure>, err: &mut E) -> u8
    ensures { Reports (status_of answer.now) (line_of answer.now) result
        (E.written err.old) (E.written err.new) (E.faults err.old) (E.faults err.new)
        (E.refused err.old) (E.refused err.new) }
{
    match answer {
        Ok(()) => 0,
        Err(Failure::Usage) => write_line(2, USAGE, err),
        Err(Failure::File(error)) => report_file(alloc, error, err),
        Err(Failure::NoColumn) => write_line(20, "no such column\n", err),
        Err(Failure::OutOfRange) => write_line(21, "out of range\n", err),
        Err(Failure::TotalOverflow) => write_line(22, "total overflow\n", err),
        Err(Failure::WriteFault) => write_line(5, "write fault\n", err),
        Err(Failure::NoMemory) => write_line(OUT_OF_MEMORY, "out of memory\n", err),
    }
}
