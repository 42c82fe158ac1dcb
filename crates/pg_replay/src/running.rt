//! The program over a relation file and an input.

ghost use Rattle.std.specs.Prelude.{[], ◌∷◌, ◌≤◌, IsErrOf, OnOk};
ghost use Rattle.pg_replay.specs.Program.{fault_counts, HasRun, HasRecordedFile, HasVerifiedFile, HasRecorded, HasToldVerdict, HasVerified, HasWritten, IsRecordOutcome, surroundings};
ghost use Rattle.pg_replay.specs.Statuses.{status_of, line_of, verdict_line, verdict_outcome};
ghost use Rattle.pg_replay.specs.Words.{order_of};
ghost use Rattle.pg_replay.specs.declared.outcome.Outcome.{Outcome};
ghost use Rattle.recording_text.specs.Text.{recording_text};
ghost use Rattle.pg_engine.specs.Serving.{FaultsNeverFall, counts_of};
ghost use Rattle.status_lines.specs.Counts.{ComesTo, CountsNeverFall};
ghost use Rattle.status_lines.specs.StatusLines.{IsReported};

use crate::input::read_input;
use crate::outcome::Outcome;
use crate::telling::tell;
use crate::words::{Order, read_order};
use conversation_runs::{ServeError, Sink, SinkError, Source};
use pg_handlers::{EndKind, ScriptDesk};
use pg_messages::{PgList, PgStr};
use recording_text::{ReadError, Recording, read_recording, write_recording};
use relation_files::read_relations;
use relation_handlers::RelationTable;
use relation_words::KeyBytes;
use replay_streams::BytesSink;
use session_recording::{RecordError, record_session};
use session_replay::{Verdict, verify};
use std::alloc::{AllocError, Global};

/// How many turns a client has.
const TURNS: u64 = 1_000_000_000;

/// How many bytes of a client, and of the replies, there is room for.
const ROOM: usize = 268_435_456;

/// The program over a relation file, whose words are an order:
///
/// - `record FILE PID KEY` serves the client's bytes over the relations, as
///   [`record_session`](crate::record_session) does, and writes the recording to `out`. PID is 1 to
///   2147483647, KEY an even number of hexadecimal digits, 8 to 512 of them. The registry answers
///   each question no. There is room for 268,435,456 bytes of the client, and for as many of the
///   replies, and there are 1,000,000,000 turns.
/// - `verify FILE` reads a recording from `client`, to its end, and replays it over the relations,
///   as [`verify`](crate::verify) does. The verdict is a line on `out`: `same`, `calls N`,
///   `replies N` or `end`.
///
/// The relation file comes from `file`; this call doesn't open FILE. The status is 0 where the
/// recording was written, or the recording is that of a run; 2 where the words are no order; 3
/// where the file is refused; 4 where a read of `client` failed; 5 where a write failed; 6 where
/// the turns were spent; 7 where memory ran out; 9 where a read of the file failed; 20 where the
/// recording isn't that of a run; 21 where there was no room for a session that came to its end; 22
/// where the input is no recording or has over 536,871,936 bytes. Each status but 0 and 20 comes
/// with a line on `err`. A write to `err` that fails leaves the status as it is; one that finds no
/// memory makes it 7. Words are judged first, then the file, then the rest.
///
/// Nothing was read of the client and nothing written to `out` after 2, 3 and 9, and nothing was
/// written after 4, 6, 21 and 22.
pub fn run_replay<F: Source, S: Source, K: Sink, E: Sink>(
    alloc: Global,
    words: &[PgStr],
    file: &mut F,
    client: &mut S,
    out: &mut K,
    err: &mut E,
) -> u8
    ensures ran { (outcome : Outcome) × HasRun (order_of words.now) outcome
        (surroundings F.left F.faults S.left S.reads S.faults K.written K.faults file.old client.old
        out.old)
        (surroundings F.left F.faults S.left S.reads S.faults K.written K.faults file.new client.new
        out.new)
        × IsReported (status_of outcome) (line_of outcome) result (E.written err.old)
        (E.written err.new)
        (E.faults err.old) (E.faults err.new)
        (E.refused err.old) (E.refused err.new) }
    ensures never_falls { CountsNeverFall
        (F.faults file.old ∷ S.faults client.old ∷ K.faults out.old ∷ E.faults err.old ∷ [])
        (F.faults file.new ∷ S.faults client.new ∷ K.faults out.new ∷ E.faults err.new ∷ []) }
{
    let outcome = carry_out(alloc, words, file, client, out);
    tell(alloc, &outcome, err)
}

/// Does what the words order.
fn carry_out<F: Source, S: Source, K: Sink>(
    alloc: Global,
    words: &[PgStr],
    file: &mut F,
    client: &mut S,
    out: &mut K,
) -> Outcome
    ensures { ComesTo (HasRun (order_of words.now)) fault_counts result
        (surroundings F.left F.faults S.left S.reads S.faults K.written K.faults file.old client.old
        out.old)
        (surroundings F.left F.faults S.left S.reads S.faults K.written K.faults file.new client.new
        out.new) }
{
    match read_order(words) {
        None => Outcome::Usage,
        Some(Order::Record(pid, key)) => record_file(alloc, pid, &key, file, client, out),
        Some(Order::Verify) => verify_file(alloc, file, client, out),
    }
}

/// Records the client over the relations of the file.
fn record_file<F: Source, S: Source, K: Sink>(
    alloc: Global,
    pid: i32,
    key: &KeyBytes,
    file: &mut F,
    client: &mut S,
    out: &mut K,
) -> Outcome
    ensures { ComesTo (HasRecordedFile pid key.now) fault_counts result
        (surroundings F.left F.faults S.left S.reads S.faults K.written K.faults file.old client.old
        out.old)
        (surroundings F.left F.faults S.left S.reads S.faults K.written K.faults file.new client.new
        out.new) }
{
    match read_relations(alloc, file) {
        Err(error) => Outcome::File(error),
        Ok(relations) => record_client(alloc, pid, key, &relations, client, out),
    }
}

/// Verifies the recording on the input over the relations of the file.
fn verify_file<F: Source, S: Source, K: Sink>(
    alloc: Global,
    file: &mut F,
    client: &mut S,
    out: &mut K,
) -> Outcome
    ensures { ComesTo HasVerifiedFile fault_counts result
        (surroundings F.left F.faults S.left S.reads S.faults K.written K.faults file.old client.old
        out.old)
        (surroundings F.left F.faults S.left S.reads S.faults K.written K.faults file.new client.new
        out.new) }
{
    match read_relations(alloc, file) {
        Err(error) => Outcome::File(error),
        Ok(relations) => verify_input(alloc, &relations, client, out),
    }
}

/// Records the client over a table, by a registry that answers no.
fn record_client<S: Source, K: Sink>(
    alloc: Global,
    pid: i32,
    key: &KeyBytes,
    relations: &RelationTable,
    client: &mut S,
    out: &mut K,
) -> Outcome
    ensures recorded { HasRecorded pid key.now relations.now result (S.left client.old)
        (S.left client.new) (K.written out.old) (K.written out.new)
        (counts_of S.reads S.faults K.faults client.old out.old)
        (counts_of S.reads S.faults K.faults client.new out.new) }
    ensures never_falls { FaultsNeverFall (counts_of S.reads S.faults K.faults client.old out.old)
        (counts_of S.reads S.faults K.faults client.new out.new) }
{
    let Ok(key) = key.secret_key(alloc) else {
        return Outcome::NoMemory;
    };
    let mut desk = ScriptDesk::new(alloc, pid, key, PgList::new(alloc));
    let mut sink = BytesSink {
        bytes: Vec::new(alloc),
        refused: 0,
    };
    let (answer, recorded) = record_session(
        alloc, relations, &mut desk, client, &mut sink, TURNS, ROOM,
    );
    // The desk's own fact, that it answered by its list, is what the contract needs of it.
    let _calls = desk.calls();
    // The replies stand in the recording too, and its text is about to be made.
    drop(sink);
    write_recorded(alloc, answer, &recorded, out)
}

/// Writes the recording of a session that came to its end, where there is one. The session's replies
/// go to memory, so no write of it fails.
fn write_recorded<K: Sink>(
    alloc: Global,
    answer: Result<EndKind, ServeError>,
    recorded: &Result<Recording, RecordError>,
    out: &mut K,
) -> Outcome
    requires in_memory { ¬ IsErrOf answer ServeError.WriteFault }
    requires ended { OnOk answer (¬ IsErrOf recorded.now RecordError.Unended) }
    ensures told { IsRecordOutcome answer recorded.now result (K.written out.old)
        (K.written out.new) (K.faults out.old) (K.faults out.new) }
    ensures never_falls { K.faults out.old ≤ K.faults out.new }
{
    match answer {
        Err(ServeError::ReadFault) => Outcome::ReadFault,
        Err(ServeError::TurnLimit) => Outcome::TurnLimit,
        Err(ServeError::NoMemory) => Outcome::NoMemory,
        Err(ServeError::WriteFault) => unreachable!(),
        Ok(_) => match recorded {
            Ok(recording) => write_to(alloc, recording, out),
            Err(RecordError::TooLong(_)) => Outcome::TooLong,
            Err(RecordError::NoMemory) => Outcome::NoMemory,
            Err(RecordError::Unended) => unreachable!(),
        },
    }
}

/// Writes the text of a recording. A recording of 2^32 calls or more has no text, and counts as want
/// of memory.
fn write_to<K: Sink>(alloc: Global, recording: &Recording, out: &mut K) -> Outcome
    ensures written { HasWritten Outcome.Done (recording_text recording.now) result
        (K.written out.old) (K.written out.new) (K.faults out.old) (K.faults out.new) }
    ensures never_falls { K.faults out.old ≤ K.faults out.new }
{
    if recording.calls.len() > u32::MAX as usize {
        return Outcome::NoMemory;
    }
    match write_recording(alloc, recording) {
        Ok(text) => send_to(Outcome::Done, text.as_slice(), out),
        Err(AllocError) => Outcome::NoMemory,
    }
}

/// Writes a text, and answers the outcome: `written` where all of it was written.
fn send_to<K: Sink>(written: Outcome, text: &[u8], out: &mut K) -> Outcome
    ensures written { HasWritten written text.now result (K.written out.old) (K.written out.new)
        (K.faults out.old) (K.faults out.new) }
    ensures never_falls { K.faults out.old ≤ K.faults out.new }
{
    match out.send(text) {
        Ok(()) => written,
        Err(SinkError::Failed) => Outcome::WriteFault,
        Err(SinkError::NoMemory) => Outcome::NoMemory,
    }
}

/// Verifies the recording on the input over a table.
fn verify_input<S: Source, K: Sink>(
    alloc: Global,
    relations: &RelationTable,
    client: &mut S,
    out: &mut K,
) -> Outcome
    ensures verified { HasVerified relations.now result (S.left client.old)
        (S.left client.new) (K.written out.old) (K.written out.new)
        (counts_of S.reads S.faults K.faults client.old out.old)
        (counts_of S.reads S.faults K.faults client.new out.new) }
    ensures never_falls { FaultsNeverFall (counts_of S.reads S.faults K.faults client.old out.old)
        (counts_of S.reads S.faults K.faults client.new out.new) }
{
    let text = match read_input(alloc, client) {
        Ok(text) => text,
        Err(outcome) => return outcome,
    };
    match read_recording(alloc, text.as_slice()) {
        Ok(recording) => {
            // The text's memory is given back before the replay's replies take theirs.
            drop(text);
            verify_recording(alloc, relations, &recording, out)
        }
        Err(ReadError::NoMemory) => Outcome::NoMemory,
        Err(_) => Outcome::BadRecording,
    }
}

/// Verifies a recording over a table, and writes the line of the verdict.
fn verify_recording<K: Sink>(
    alloc: Global,
    relations: &RelationTable,
    recording: &Recording,
    out: &mut K,
) -> Outcome
    ensures told { HasToldVerdict relations.now recording.now result (K.written out.old)
        (K.written out.new) (K.faults out.old) (K.faults out.new) }
    ensures never_falls { K.faults out.old ≤ K.faults out.new }
{
    match verify(alloc, relations, recording) {
        Ok(verdict) => write_verdict(alloc, verdict, out),
        Err(AllocError) => Outcome::NoMemory,
    }
}

/// Writes the line of a verdict.
fn write_verdict<K: Sink>(alloc: Global, verdict: Verdict, out: &mut K) -> Outcome
    ensures written { HasWritten (verdict_outcome verdict) (verdict_line verdict) result
        (K.written out.old) (K.written out.new) (K.faults out.old) (K.faults out.new) }
    ensures never_falls { K.faults out.old ≤ K.faults out.new }
{
    match verdict {
        Verdict::Same => send_to(Outcome::Done, "same\n".as_bytes(), out),
        Verdict::End(_) => send_to(Outcome::Differs, "end\n".as_bytes(), out),
        Verdict::Calls(place) => match format!(in alloc; "calls {place}\n") {
            Ok(line) => send_to(Outcome::Differs, line.as_bytes(), out),
            Err(AllocError) => Outcome::NoMemory,
        },
        Verdict::Replies(place) => match format!(in alloc; "replies {place}\n") {
            Ok(line) => send_to(Outcome::Differs, line.as_bytes(), out),
            Err(AllocError) => Outcome::NoMemory,
        },
    }
}
