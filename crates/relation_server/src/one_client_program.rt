//! The program over one client: its commands `serve` and `demo`.

ghost use Rattle.std.specs.Prelude.{◌≡◌, [], ◌∷◌, List, ℕ, Option};
ghost use Rattle.pg_engine.specs.Serving.{counts_of};
ghost use Rattle.relation_server.specs.Outcomes.{status_of, line_of};
ghost use Rattle.status_lines.specs.Counts.{CountsNeverFall};
ghost use Rattle.status_lines.specs.StatusLines.{IsReported};
ghost use Rattle.relation_server.specs.Program.{HasRun, HasServed, HasServedFile, IsRunComplete, surroundings, surroundings_of};
ghost use Rattle.relation_server.specs.declared.outcome.Outcome.{Outcome};
ghost use Rattle.relation_words.specs.Commands.{command_of};

use crate::connection_job::serve_and_leave;
use crate::demo::show_demo;
use crate::outcome::Outcome;
use crate::report::report;
use conversation_runs::{Sink, Source};
use pg_cancel::{ConnectionManager, Door, Note, RegisterError};
use pg_messages::PgStr;
use relation_files::read_relations;
use relation_handlers::RelationTable;
use relation_words::{Command, Service, read_command};
use std::alloc::{AllocError, Global};
use std::sync::Wait;

/// The program over one client. The words are a command:
///
/// - `serve FILE PID KEY [TURNS]` reads the relation file from `file`, registers PID and KEY,
///   serves the client's bytes with the replies to `out`, and ends the registration. PID is 1 to
///   2147483647, KEY an even number of hexadecimal digits, 8 to 512 of them, and TURNS 1 to
///   18446744073709551615, by default 1000000000.
/// - `demo SEED N` generates N relations from SEED and a client that runs each, serves that client
///   under pid 1 and key 00000000 with 2^63 turns, and writes four lines to `out`: `relations N`,
///   `rows R` (rows that were sent), `in B` and `out C` (bytes of the client and of the replies).
///   SEED is 0 to 18446744073709551615, and N 0 to 10000.
///
/// The status is 0 where the client sent Terminate or a CancelRequest or its input ended, or the
/// demo's lines were written; 2 where the words are no command; 3 where the file is refused; 4
/// where a read of the client failed; 5 where a write failed; 6 where the turns were spent; 7 where
/// memory ran out; 8 where the pid has a live registration; 9 where a read of the file failed; 10
/// at a bad frame; 11 at a fatal error. Each status but 0 comes with a line on `err`. A write to
/// `err` that fails leaves the status as it is; one that finds no memory makes it 7.
///
/// The note is what the connection had seen of the registry's history. It is None exactly where no
/// registration was made. Where memory ran out before the registration was ended, the registration
/// stays.
pub fn run<R: Wait, F: Source, S: Source, K: Sink, E: Sink>(
    rt: &R,
    alloc: Global,
    words: &[PgStr],
    manager: &ConnectionManager,
    door: &mut Door,
    file: &mut F,
    client: &mut S,
    out: &mut K,
    err: &mut E,
) -> (u8, Option<Note>)
    requires issued { door.old.issuer ≡ manager.now }
    ensures ran { (outcome : Outcome) × HasRun manager.now (command_of words.now) outcome result.1
        (surroundings_of F.left F.faults S.left S.reads S.faults K.written K.faults file.old
        client.old out.old door.old.seen)
        (surroundings_of F.left F.faults S.left S.reads S.faults K.written K.faults file.new
        client.new out.new door.new.seen)
        × IsReported (status_of outcome) (line_of outcome) result.0 (E.written err.old)
        (E.written err.new)
        (E.faults err.old) (E.faults err.new)
        (E.refused err.old) (E.refused err.new) }
    ensures complete { IsRunComplete (command_of words.now) result.0
        (surroundings_of F.left F.faults S.left S.reads S.faults K.written K.faults file.old
        client.old out.old door.old.seen)
        (surroundings_of F.left F.faults S.left S.reads S.faults K.written K.faults file.new
        client.new out.new door.new.seen) }
    ensures never_falls { CountsNeverFall
        (F.faults file.old ∷ S.faults client.old ∷ K.faults out.old ∷ E.faults err.old ∷ [])
        (F.faults file.new ∷ S.faults client.new ∷ K.faults out.new ∷ E.faults err.new ∷ []) }
    ensures issued { door.new.issuer ≡ door.old.issuer }
{
    let (outcome, note) = carry_out(rt, alloc, words, manager, door, file, client, out);
    (report(alloc, &outcome, err), note)
}

/// Does what the words order.
fn carry_out<R: Wait, F: Source, S: Source, K: Sink>(
    rt: &R,
    alloc: Global,
    words: &[PgStr],
    manager: &ConnectionManager,
    door: &mut Door,
    file: &mut F,
    client: &mut S,
    out: &mut K,
) -> (Outcome, Option<Note>)
    requires issued { door.old.issuer ≡ manager.now }
    ensures ran { HasRun manager.now (command_of words.now) result.0 result.1
        (surroundings_of F.left F.faults S.left S.reads S.faults K.written K.faults file.old
        client.old out.old door.old.seen)
        (surroundings_of F.left F.faults S.left S.reads S.faults K.written K.faults file.new
        client.new out.new door.new.seen) }
    ensures never_falls { CountsNeverFall
        (F.faults file.old ∷ S.faults client.old ∷ K.faults out.old ∷ [])
        (F.faults file.new ∷ S.faults client.new ∷ K.faults out.new ∷ []) }
    ensures issued { door.new.issuer ≡ door.old.issuer }
{
    match read_command(alloc, words) {
        Err(AllocError) => (Outcome::OUT_OF_MEMORY, None),
        Ok(None) => (Outcome::Usage, None),
        Ok(Some(Command::Serve(service))) => {
            serve_file(rt, alloc, service, manager, door, file, client, out)
        }
        Ok(Some(Command::Demo(load))) => show_demo(rt, alloc, load, manager, door, out),
    }
}

/// Serves the client over the relations of the file.
fn serve_file<R: Wait, F: Source, S: Source, K: Sink>(
    rt: &R,
    alloc: Global,
    service: Service,
    manager: &ConnectionManager,
    door: &mut Door,
    file: &mut F,
    client: &mut S,
    out: &mut K,
) -> (Outcome, Option<Note>)
    requires issued { door.old.issuer ≡ manager.now }
    ensures served { HasServedFile manager.now service result.0 result.1
        (surroundings_of F.left F.faults S.left S.reads S.faults K.written K.faults file.old
        client.old out.old door.old.seen)
        (surroundings_of F.left F.faults S.left S.reads S.faults K.written K.faults file.new
        client.new out.new door.new.seen) }
    ensures never_falls { CountsNeverFall
        (F.faults file.old ∷ S.faults client.old ∷ K.faults out.old ∷ [])
        (F.faults file.new ∷ S.faults client.new ∷ K.faults out.new ∷ []) }
    ensures issued { door.new.issuer ≡ door.old.issuer }
{
    match read_relations(alloc, file) {
        Err(error) => (Outcome::File(error), None),
        Ok(relations) => serve_table(rt, alloc, service, manager, door, &relations, client, out),
    }
}

/// Registers the pid and the key of the service, and serves the client over a table.
fn serve_table<R: Wait, S: Source, K: Sink>(
    rt: &R,
    alloc: Global,
    service: Service,
    manager: &ConnectionManager,
    door: &mut Door,
    relations: &RelationTable,
    client: &mut S,
    out: &mut K,
) -> (Outcome, Option<Note>)
    requires issued { door.old.issuer ≡ manager.now }
    ensures served { (left new_left : Option (List ℕ)) (faults new_faults : ℕ)
        → HasServed manager.now service relations.now result.0 result.1
        (surroundings left faults (S.left client.old) (K.written out.old)
        (counts_of S.reads S.faults K.faults client.old out.old) door.old.seen)
        (surroundings new_left new_faults (S.left client.new) (K.written out.new)
        (counts_of S.reads S.faults K.faults client.new out.new) door.new.seen) }
    ensures never_falls { CountsNeverFall (S.faults client.old ∷ K.faults out.old ∷ [])
        (S.faults client.new ∷ K.faults out.new ∷ []) }
    ensures issued { door.new.issuer ≡ door.old.issuer }
{
    match manager.register(rt, door, service.pid, service.key) {
        Err(RegisterError::PidTaken(_)) => (Outcome::PidTaken, None),
        Err(RegisterError::NoMemory) => (Outcome::OUT_OF_MEMORY, None),
        Ok(handle) => {
            let turns = service.turns;
            let (answer, note) = serve_and_leave(
                rt, alloc, manager, handle, relations, client, out, turns,
            );
            (Outcome::Conversation(answer), Some(note))
        }
    }
}
