//! What the program tells of a command's outcome: its status, and a line.

ghost use Rattle.relation_server.specs.Outcomes.{status_of, line_of};
ghost use Rattle.status_lines.specs.StatusLines.{Reports};

use crate::outcome::Outcome;
use conversation_runs::Sink;
use status_lines::{report_conversation, report_file, write_line};
use std::alloc::Global;

/// The line for words that are no command.
const USAGE: &str =
    "usage: relation_server serve FILE PID KEY [TURNS], demo SEED N, listen tcp PORT FILE [COUNT], listen unix PATH FILE [COUNT]\n";

/// Writes the line of an outcome, where it has one, and answers its status, or 7 where there is no
/// memory for the line or in the sink.
pub(crate) fn report<E: Sink>(alloc: Global, outcome: &Outcome, err: &mut E) -> u8
    ensures { Reports (status_of outcome.now) (line_of outcome.now) result
        (E.written err.old) (E.written err.new) (E.faults err.old) (E.faults err.new)
        (E.refused err.old) (E.refused err.new) }
{
    match outcome {
        Outcome::Done => 0,
        Outcome::Usage => write_line(2, USAGE, err),
        Outcome::File(error) => report_file(alloc, error, err),
        Outcome::PidTaken => write_line(8, "pid is taken\n", err),
        Outcome::Conversation(answer) => report_conversation(*answer, err),
        Outcome::AcceptFault => write_line(12, "accept fault\n", err),
        Outcome::SpawnFault => write_line(13, "spawn fault\n", err),
    }
}
