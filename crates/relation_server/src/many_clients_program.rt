//! The program over many clients: its command `listen`.

ghost use Rattle.std.specs.Prelude.{◌≡◌, ◌<◌, ◌^◌, [], ◌∷◌};
ghost use Rattle.std.specs.Arc.{arc_value};
ghost use Rattle.relation_words.specs.Listening.{listen_count_of};
ghost use Rattle.relation_server.specs.declared.outcome.Outcome.{Outcome};
ghost use mathlib.Core.List.{IsPrefix};
ghost use Rattle.many_clients.specs.Listening.{DoorGoesOn, HasRoom, taking_of};
ghost use Rattle.relation_server.specs.Outcomes.{status_of, line_of};
ghost use Rattle.status_lines.specs.Counts.{CountsNeverFall};
ghost use Rattle.status_lines.specs.StatusLines.{IsReported};
ghost use Rattle.relation_server.specs.RelationJobs.{ServesFile};
ghost use Rattle.relation_server.specs.Program.{HasListened, HasRunListening, SharesRelations, listen_surroundings, outcome_of};

use crate::accept_loop::listen;
use crate::connection_job::ConnectionJob;
use crate::outcome::Outcome;
use crate::report::report;
use conversation_runs::{Sink, Source};
use many_clients::ListenError;
use pg_cancel::{ConnectionManager, Door};
use pg_messages::PgStr;
use pg_serve::{Acceptor, KeySource, Spawner};
use relation_files::read_relations;
use relation_handlers::RelationTable;
use relation_words::listen_count;
use std::alloc::Global;
use std::sync::{Arc, Wait};

/// How many turns each client has.
const TURNS: u64 = 1_000_000_000;

/// The program over many clients. The words are `listen tcp PORT FILE [COUNT]` or `listen unix PATH
/// FILE [COUNT]`. PORT is 1 to 65535, PATH isn't empty, and COUNT is 0 to 10000. It reads the
/// relation file from `file`. Then [`listen`] takes in COUNT connections, or as many as there are
/// pids, each under the next pid from 1 on and with 1,000,000,000 turns. The caller chooses what
/// the acceptor listens to, by [`listen_place`].
///
/// The status is 0 after COUNT connections; 2 where the words are any others; 3 where the file is
/// refused; 7 where memory ran out; 8 where the next pid has a live registration; 9 where a read of
/// the file failed; 12 where a connection could not be accepted; 13 where the job of a connection
/// could not be started. Each status but 0 comes with a line on `err`. A write to `err` that fails
/// leaves the status as it is; one that finds no memory makes it 7.
///
/// [`listen_place`]: relation_words::listen_place
pub fn run_listen<
    R: Wait,
    F: Source,
    A: Acceptor,
    P: Spawner<ConnectionJob<A::In, A::Out>>,
    G: KeySource,
    E: Sink,
>(
    rt: &R,
    alloc: Global,
    words: &[PgStr],
    manager: Arc<ConnectionManager>,
    door: &mut Door,
    file: &mut F,
    acceptor: &mut A,
    spawner: &mut P,
    keys: &mut G,
    err: &mut E,
) -> u8
    requires issued { door.old.issuer ≡ arc_value manager }
    requires accepted { A.accepted acceptor.old < 2 ^ 63 }
    requires started { P.started spawner.old < 2 ^ 63 }
    ensures ran { (outcome : Outcome) × HasRunListening (listen_count_of words.now) outcome
        (listen_surroundings (F.left file.old) (F.faults file.old)
        (taking_of A.accepted A.faults P.started P.faults acceptor.old spawner.old) door.old.seen)
        (listen_surroundings (F.left file.new) (F.faults file.new)
        (taking_of A.accepted A.faults P.started P.faults acceptor.new spawner.new) door.new.seen)
        × IsReported (status_of outcome) (line_of outcome) result (E.written err.old)
        (E.written err.new)
        (E.faults err.old) (E.faults err.new)
        (E.refused err.old) (E.refused err.new) }

    // Each connection became the job of its own pid, in order, over the relations of the file.
    ensures jobs { ServesFile (F.left file.old) (F.left file.new) 1000000000 (arc_value manager)
        (A.coming acceptor.old) (P.started spawner.old) (P.started spawner.new)
        (P.taken spawner.old) (P.taken spawner.new) }
    ensures never_falls { CountsNeverFall
        (F.faults file.old ∷ A.faults acceptor.old ∷ P.faults spawner.old ∷ E.faults err.old ∷ [])
        (F.faults file.new ∷ A.faults acceptor.new ∷ P.faults spawner.new ∷ E.faults err.new ∷ []) }
    ensures seen { IsPrefix door.old.seen door.new.seen }
    ensures issued { door.new.issuer ≡ door.old.issuer }
{
    let outcome = match listen_count(words) {
        None => Outcome::Usage,
        Some(count) => listen_over(
            rt, alloc, count, manager, door, file, acceptor, spawner, keys,
        ),
    };
    report(alloc, &outcome, err)
}

/// Reads the relations of the file, and takes in connections over them.
fn listen_over<
    R: Wait,
    F: Source,
    A: Acceptor,
    P: Spawner<ConnectionJob<A::In, A::Out>>,
    G: KeySource,
>(
    rt: &R,
    alloc: Global,
    count: Option<u64>,
    manager: Arc<ConnectionManager>,
    door: &mut Door,
    file: &mut F,
    acceptor: &mut A,
    spawner: &mut P,
    keys: &mut G,
) -> Outcome
    requires issued { door.old.issuer ≡ arc_value manager }
    requires room { HasRoom (A.accepted acceptor.old) (P.started spawner.old) }
    ensures listened { HasListened count result
        (listen_surroundings (F.left file.old) (F.faults file.old)
        (taking_of A.accepted A.faults P.started P.faults acceptor.old spawner.old) door.old.seen)
        (listen_surroundings (F.left file.new) (F.faults file.new)
        (taking_of A.accepted A.faults P.started P.faults acceptor.new spawner.new) door.new.seen) }
    ensures jobs { ServesFile (F.left file.old) (F.left file.new) 1000000000 (arc_value manager)
        (A.coming acceptor.old) (P.started spawner.old) (P.started spawner.new)
        (P.taken spawner.old) (P.taken spawner.new) }
    ensures never_falls { CountsNeverFall
        (F.faults file.old ∷ A.faults acceptor.old ∷ P.faults spawner.old ∷ [])
        (F.faults file.new ∷ A.faults acceptor.new ∷ P.faults spawner.new ∷ []) }
    ensures door { DoorGoesOn door.old door.new }
{
    match shared_relations(alloc, file) {
        Err(outcome) => outcome,
        Ok(relations) => outcome_of(listen(
            rt, acceptor, spawner, keys, manager, door, relations, TURNS, count,
        )),
    }
}

/// Reads the relations of the file, for the jobs to share.
fn shared_relations<F: Source>(alloc: Global, file: &mut F) -> Result<Arc<RelationTable>, Outcome>
    ensures { SharesRelations arc_value result (F.left file.old) (F.left file.new)
        (F.faults file.old) (F.faults file.new) }
{
    let relations = match read_relations(alloc, file) {
        Err(error) => return Err(Outcome::File(error)),
        Ok(relations) => relations,
    };
    let Ok(shared) = Arc::new(alloc, relations) else {
        return Err(Outcome::OUT_OF_MEMORY);
    };
    Ok(shared)
}

/// The outcome of listening.
fn outcome_of(answer: Result<u64, ListenError>) -> Outcome
    ensures { result ≡ outcome_of answer }
{
    match answer {
        Ok(_) => Outcome::Done,
        Err(ListenError::AcceptFault) => Outcome::AcceptFault,
        Err(ListenError::SpawnFault) => Outcome::SpawnFault,
        Err(ListenError::PidTaken(_)) => Outcome::PidTaken,
        Err(ListenError::NoMemory) => Outcome::OUT_OF_MEMORY,
    }
}
