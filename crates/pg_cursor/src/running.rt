//! The program over a relation file and one client.

ghost use Rattle.std.specs.Prelude.{[], ◌∷◌};
ghost use Rattle.pg_engine.specs.Serving.{FaultsNeverFall, counts_of};
ghost use Rattle.pg_cursor.specs.Program.{fault_counts, HasRun, HasServedFile, WasServed, IsRunComplete, surroundings};
ghost use Rattle.pg_cursor.specs.Statuses.{status_of, line_of};
ghost use Rattle.pg_cursor.specs.declared.outcome.Outcome.{Outcome};
ghost use Rattle.relation_words.specs.Commands.{command_of};
ghost use Rattle.status_lines.specs.Counts.{ComesTo, CountsNeverFall};
ghost use Rattle.status_lines.specs.StatusLines.{IsReported};

use crate::outcome::Outcome;
use crate::telling::tell;
use conversation_runs::{ServeError, Sink, Source};
use cursor_serving::serve_cursors_on;
use pg_client::EndKind;
use pg_handlers::ScriptDesk;
use pg_messages::{PgList, PgStr};
use relation_files::read_relations;
use relation_handlers::RelationTable;
use relation_words::{Command, Service, read_command};
use std::alloc::{AllocError, Global};

/// The program over a relation file and one client. The words are `serve FILE PID KEY [TURNS]`: PID
/// is 1 to 2147483647, KEY an even number of hexadecimal digits, 8 to 512 of them, and TURNS 1 to
/// 18446744073709551615, by default 1000000000. The relation file comes from `file`; this call doesn't
/// open FILE. The client's bytes are served with cursors, as
/// [`serve_cursors_on`](crate::serve_cursors_on) does, with the replies to `out`. The client is told
/// PID and KEY. No query is ever canceled: the client's registry answers no to each question and to
/// each CancelRequest.
///
/// The status is 0 where the client sent Terminate or a CancelRequest or its input ended; 2 where
/// the words are no `serve`; 3 where the file is refused; 4 where a read of the client failed; 5
/// where a write failed; 6 where the turns were spent; 7 where memory ran out; 9 where a read of
/// the file failed; 10 at a bad frame; 11 at a fatal error. Each status but 0 comes with a line on
/// `err`. A write to `err` that fails leaves the status as it is; one that finds no memory makes it
/// 7. Words are judged first, then the file.
///
/// Nothing was read of the client and nothing written to `out` after 2, 3 and 9.
pub fn run_cursors<F: Source, S: Source, K: Sink, E: Sink>(
    alloc: Global,
    words: &[PgStr],
    file: &mut F,
    client: &mut S,
    out: &mut K,
    err: &mut E,
) -> u8
    ensures ran { (outcome : Outcome) × HasRun (command_of words.now) outcome
        (surroundings F.left F.faults S.left S.reads S.faults K.written K.faults file.old client.old
        out.old)
        (surroundings F.left F.faults S.left S.reads S.faults K.written K.faults file.new client.new
        out.new)
        × IsReported (status_of outcome) (line_of outcome) result (E.written err.old)
        (E.written err.new)
        (E.faults err.old) (E.faults err.new)
        (E.refused err.old) (E.refused err.new) }

    // With enough turns, a file that isn't refused, and no fault, the conversation comes to its end.
    ensures complete { IsRunComplete (command_of words.now) result
        (surroundings F.left F.faults S.left S.reads S.faults K.written K.faults file.old client.old
        out.old)
        (surroundings F.left F.faults S.left S.reads S.faults K.written K.faults file.new client.new
        out.new) }
    ensures never_falls { CountsNeverFall
        (F.faults file.old ∷ S.faults client.old ∷ K.faults out.old ∷ E.faults err.old ∷ [])
        (F.faults file.new ∷ S.faults client.new ∷ K.faults out.new ∷ E.faults err.new ∷ []) }
{
    let outcome = carry_out(alloc, words, file, client, out);
    tell(alloc, &outcome, err)
}

/// Does what the words order.
fn carry_out<F: Source, S: Source, K: Sink>(
    alloc: Global,
    words: &[PgStr],
    file: &mut F,
    client: &mut S,
    out: &mut K,
) -> Outcome
    ensures { ComesTo (HasRun (command_of words.now)) fault_counts result
        (surroundings F.left F.faults S.left S.reads S.faults K.written K.faults file.old client.old
        out.old)
        (surroundings F.left F.faults S.left S.reads S.faults K.written K.faults file.new client.new
        out.new) }
{
    match read_command(alloc, words) {
        Err(AllocError) => Outcome::Conversation(Err(ServeError::NoMemory)),
        Ok(Some(Command::Serve(service))) => serve_file(alloc, service, file, client, out),
        Ok(Some(Command::Demo(_)) | None) => Outcome::Usage,
    }
}

/// Serves the client over the relations of the file.
fn serve_file<F: Source, S: Source, K: Sink>(
    alloc: Global,
    service: Service,
    file: &mut F,
    client: &mut S,
    out: &mut K,
) -> Outcome
    ensures { ComesTo (HasServedFile service) fault_counts result
        (surroundings F.left F.faults S.left S.reads S.faults K.written K.faults file.old client.old
        out.old)
        (surroundings F.left F.faults S.left S.reads S.faults K.written K.faults file.new client.new
        out.new) }
{
    match read_relations(alloc, file) {
        Err(error) => Outcome::File(error),
        Ok(relations) => {
            Outcome::Conversation(serve_table(alloc, service, &relations, client, out))
        }
    }
}

/// Serves the client over a table, by a registry that answers no.
fn serve_table<S: Source, K: Sink>(
    alloc: Global,
    service: Service,
    relations: &RelationTable,
    client: &mut S,
    out: &mut K,
) -> Result<EndKind, ServeError>
    ensures served { WasServed service relations.now result (S.left client.old) (S.left client.new)
        (K.written out.old) (K.written out.new)
        (counts_of S.reads S.faults K.faults client.old out.old)
        (counts_of S.reads S.faults K.faults client.new out.new) }
    ensures never_falls { FaultsNeverFall (counts_of S.reads S.faults K.faults client.old out.old)
        (counts_of S.reads S.faults K.faults client.new out.new) }
{
    let mut desk = ScriptDesk::new(alloc, service.pid, service.key, PgList::new(alloc));
    let answer = serve_cursors_on(alloc, &mut desk, relations, client, out, service.turns);
    // The desk's own fact, that it answered by its list, is what the contract needs of it.
    let _calls = desk.calls();
    answer
}
