//! Many clients of relations at once: each connection is registered and served by a job of its own.

ghost use Rattle.std.specs.Prelude.{◌≡◌, ◌↔◌, ◌<◌, ◌+◌, ◌^◌, ℕ, Err};
ghost use Rattle.std.specs.Arc.{arc_value};
ghost use mathlib.Core.List.{IsPrefix};
ghost use Rattle.many_clients.specs.Jobs.{ServesEach};
ghost use Rattle.many_clients.specs.Listening.{HasEndedSo, NeverFalls, IsRefusedAt, taking_of};
ghost use Rattle.many_clients.specs.declared.accept_loop.ListenError.{ListenError};
ghost use Rattle.relation_server.specs.RelationJobs.{IsRelationJobOf};

use crate::connection_job::ConnectionJob;
use conversation_runs::{Sink, Source};
use many_clients::{JobMaker, ListenError, listen_with};
use pg_cancel::{ConnectionHandle, ConnectionManager, Door};
use pg_serve::{Acceptor, KeySource, Spawner};
use relation_handlers::RelationTable;
use std::alloc::AllocError;
use std::sync::{Arc, Wait};

/// Accepts connections, registers each under the next pid, from 1 on, and starts its job. It ends
/// after `count` connections, or after the one with the greatest pid, and answers how many it took
/// in. It reads no byte of a connection.
///
/// AcceptFault comes where a connection could not be accepted, SpawnFault where a job could not be
/// started, PidTaken where the next pid has a live registration, NoMemory where memory ran out or
/// there was no key. At an error, a connection that was accepted but has no job is dropped. The
/// jobs that were started go on.
pub fn listen<R: Wait, A: Acceptor, P: Spawner<ConnectionJob<A::In, A::Out>>, G: KeySource>(
    rt: &R,
    acceptor: &mut A,
    spawner: &mut P,
    keys: &mut G,
    manager: Arc<ConnectionManager>,
    door: &mut Door,
    relations: Arc<RelationTable>,
    turn_limit: u64,
    count: Option<u64>,
) -> Result<u64, ListenError>
    requires issued { door.old.issuer ≡ arc_value manager }
    requires accepted { A.accepted acceptor.old < 2 ^ 63 }
    requires started { P.started spawner.old < 2 ^ 63 }
    ensures ended { HasEndedSo result count
        (taking_of A.accepted A.faults P.started P.faults acceptor.old spawner.old)
        (taking_of A.accepted A.faults P.started P.faults acceptor.new spawner.new)
        door.old.seen door.new.seen }

    // Each connection became the job of its own pid, in order, over these relations and with these
    // turns: where both are told, the jobs that were taken are those of the connections that came.
    ensures jobs { (n : ℕ) × (P.started spawner.new ≡ P.started spawner.old + n)
        × ServesEach (IsRelationJobOf (arc_value relations) turn_limit) (arc_value manager)
        (A.coming acceptor.old) (P.taken spawner.old) (P.taken spawner.new) n }

    // PidTaken comes exactly where the door gained Registers of the pids from 1 on, the last one is
    // the door's last entry and was answered Taken, and the others were answered Registered.
    ensures exactly { (m : ℕ) → (result ≡ Err (ListenError.PidTaken m))
        ↔ IsRefusedAt m door.old.seen door.new.seen }
    ensures never_falls { NeverFalls
        (taking_of A.accepted A.faults P.started P.faults acceptor.old spawner.old)
        (taking_of A.accepted A.faults P.started P.faults acceptor.new spawner.new) }
    ensures seen { IsPrefix door.old.seen door.new.seen }
    ensures issued { door.new.issuer ≡ door.old.issuer }
{
    let maker = RelationJobs {
        relations,
        turn_limit,
    };
    listen_with(rt, acceptor, spawner, keys, manager, door, &maker, count)
}

/// Makes the jobs of clients of these relations, who have so many turns each.
#[derive(Drop)]
struct RelationJobs {
    relations: Arc<RelationTable>,
    turn_limit: u64,
}

impl<S: Source + Drop, K: Sink + Drop> JobMaker<S, K, ConnectionJob<S, K>> for RelationJobs {
    ghost use Rattle.std.specs.Prelude.{ℕ, List};
    ghost use Rattle.std.specs.Arc.{arc_value};
    ghost use Rattle.relation_tables.specs.declared.Relation.{Relation};
    ghost use Rattle.relation_server.specs.RelationJobs.{IsRelationJobOf};

    ghost Common = { List Relation × ℕ };

    ghost common = { λ maker. (arc_value maker.relations, maker.turn_limit) };

    ghost makes = { λ common handle connection job.
        IsRelationJobOf common.0 common.1 handle connection job };

    fn share(&self) -> Result<RelationJobs, AllocError> {
        Ok(RelationJobs {
            relations: Arc::try_clone(&self.relations)?,
            turn_limit: self.turn_limit,
        })
    }

    fn make(
        self,
        manager: Arc<ConnectionManager>,
        handle: ConnectionHandle,
        source: S,
        sink: K,
    ) -> ConnectionJob<S, K> {
        ConnectionJob {
            manager,
            relations: self.relations,
            handle,
            source,
            sink,
            turn_limit: self.turn_limit,
        }
    }
}
