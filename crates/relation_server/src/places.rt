//! The program over what is outside of it: the standard input, and a place to listen at.

ghost use Rattle.std.specs.Prelude.{◌≡◌, [], ◌∷◌, IfOk};
ghost use Rattle.std.specs.Arc.{arc_value};
ghost use Rattle.program_io.specs.Telling.{written_to};
ghost use Rattle.relation_words.specs.Commands.{command_of};
ghost use Rattle.relation_words.specs.Listening.{listen_count_of};
ghost use Rattle.status_lines.specs.Counts.{CountsNeverFall};
ghost use Rattle.relation_server.specs.Places.{HasServedStandard, HasServedPlace, starts_of};

use crate::connection_job::ConnectionJob;
use crate::many_clients_program::run_listen;
use crate::one_client_program::run;
use crate::outcome::Outcome;
use crate::report::report;
use conversation_runs::Sink;
use listening_places::{bind_place, leave_place};
use pg_cancel::{ConnectionManager, Door};
use pg_messages::PgStr;
use pg_serve::{MaybeTls, RandomKeys, Spawner};
use program_io::{open_file, standard_input};
use relation_words::{ListenPlace, file_word};
use std::alloc::{AllocError, Global};
use std::fs::Files;
use std::io::Input;
use std::net::{Net, TcpListener, TcpStream};
use std::random::RandomSource;
use std::sync::{Arc, Wait};
use std::time::Clock;

/// Does what [`run`] does, with the client on standard input, the file that the words name, and a
/// registry of its own. It answers the status. Where there is no memory for the registry it is 7, and
/// the line is `out of memory`.
pub fn serve_standard<R: Wait + Files + Input, K: Sink, E: Sink>(
    rt: &R,
    alloc: Global,
    words: &[PgStr],
    out: &mut K,
    err: &mut E,
) -> u8
    ensures ran { HasServedStandard (command_of words.now) result
        (written_to K.written K.faults K.refused out.old)
        (written_to K.written K.faults K.refused out.new)
        (written_to E.written E.faults E.refused err.old)
        (written_to E.written E.faults E.refused err.new) }
    ensures never_falls { CountsNeverFall (K.faults out.old ∷ E.faults err.old ∷ [])
        (K.faults out.new ∷ E.faults err.new ∷ []) }
{
    let Ok((manager, mut door)) = ConnectionManager::new(alloc) else {
        return report(alloc, &Outcome::OUT_OF_MEMORY, err);
    };
    let mut client = standard_input(rt);
    let mut file = open_file(rt, file_word(words));
    let (status, _note) = run(
        rt,
        alloc,
        words,
        &manager,
        &mut door,
        &mut file,
        &mut client,
        out,
        err,
    );
    status
}

/// Binds a place, does there what [`run_listen`] does, with the file that the words name, keys that
/// nobody can guess and a registry of its own, and leaves the place, so that nothing of what was bound
/// stays behind. It answers the status. Where there is no memory for the registry it is 7, and the line
/// is `out of memory`. The clients that were taken in are still served by the spawner's threads.
pub fn serve_place<
    R: Wait
        + Net<Stream = TcpStream, Listener = TcpListener>
        + Files
        + Clock
        + Print
        + RandomSource
        + Copy
        + Drop,
    P: Spawner<ConnectionJob<MaybeTls, MaybeTls>>,
    E: Sink,
>(rt: R, alloc: Global, words: &[PgStr], place: ListenPlace<'_>, spawner: &mut P, err: &mut E) -> u8
    requires started { P.started spawner.old ≡ 0 }
    ensures ran { HasServedPlace (listen_count_of words.now) result
        (starts_of P.started P.faults P.taken spawner.old)
        (starts_of P.started P.faults P.taken spawner.new)
        (written_to E.written E.faults E.refused err.old)
        (written_to E.written E.faults E.refused err.new) }
    ensures never_falls { CountsNeverFall (P.faults spawner.old ∷ E.faults err.old ∷ [])
        (P.faults spawner.new ∷ E.faults err.new ∷ []) }
{
    let Ok((manager, mut door)) = shared_registry(alloc) else {
        return report(alloc, &Outcome::OUT_OF_MEMORY, err);
    };
    let mut file = open_file(&rt, file_word(words));
    let mut keys = RandomKeys::new(alloc, rt);
    let mut acceptor = bind_place(rt, place);
    let status = run_listen(
        &rt,
        alloc,
        words,
        manager,
        &mut door,
        &mut file,
        &mut acceptor,
        spawner,
        &mut keys,
        err,
    );
    leave_place(&rt, place, acceptor);
    status
}

/// An empty registry for jobs to share, and its door.
fn shared_registry(alloc: Global) -> Result<(Arc<ConnectionManager>, Door), AllocError>
    ensures issued { IfOk result (λ registry. registry.1.issuer ≡ arc_value registry.0) }
    ensures empty { IfOk result (λ registry. registry.1.seen ≡ []) }
{
    let (manager, door) = ConnectionManager::new(alloc)?;
    let manager = Arc::new(alloc, manager)?;
    Ok((manager, door))
}
