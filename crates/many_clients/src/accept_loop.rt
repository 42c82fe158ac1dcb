//! Many clients at once: each connection is registered and becomes a job of its own.

ghost use Rattle.std.specs.Prelude.{◌≡◌, ◌↔◌, ◌<◌, ◌≤◌, ◌+◌, ◌^◌, ◌∷◌, [], ℕ, pos, IfErr, IfOk, Err, OnOk, OnErr};
ghost use Rattle.std.specs.Arc.{arc_value};
ghost use mathlib.Core.List.{IsPrefix};
ghost use Rattle.pg_cancel.specs.Connections.{Connection};
ghost use Rattle.pg_streams.specs.Accepting.{Gains};
ghost use Rattle.many_clients.specs.Jobs.{ServesEach, ServesNext};
ghost use Rattle.many_clients.specs.Listening.{DoorGoesOn, HasAdmitted, HasEndedSo, HasTakenIn, IsTurnedAway, NeverFalls, IsRefusedAt, ServerGoesOn, connections_of, taking_of};
ghost use Rattle.many_clients.specs.Registrations.{IsFresh};
ghost use Rattle.conversation_runs.specs.Streams.{HasRisen, greatest_count};
ghost use Rattle.many_clients.specs.declared.accept_loop.ListenError.{ListenError};

use conversation_runs::{Sink, Source};
use pg_cancel::{ConnectionHandle, ConnectionManager, Door, RegisterError};
use pg_streams::{Acceptor, Job, KeySource, SpawnFailed, Spawner};
use std::alloc::AllocError;
use std::sync::{Arc, Wait};

/// The greatest pid.
const GREATEST_PID: u64 = 2147483647;

/// Why a server stopped listening.
#[derive(Clone, Copy, Debug, PartialEq, Eq)]
pub enum ListenError {
    /// No connection could be accepted.
    AcceptFault,
    /// The job of a connection could not be started. Its registration stays.
    SpawnFault,
    /// The registration at this place has the pid of the connection.
    PidTaken(u64),
    /// Memory ran out.
    NoMemory,
}

/// What the jobs of a server have in common, and how a connection that was registered becomes one of
/// them.
pub trait JobMaker<S: Source, K: Sink, J: Job>: Drop {
    // what its jobs have in common, as contracts see it
    ghost Common: { Type 0 };
    // the same of this maker
    ghost common: { Self → Common };
    // a job is made of this registration, and of a connection's source and sink
    ghost makes: { Common → Connection → S × K → J → Type 0 };

    /// The same maker, for one more job. The only error is want of memory.
    fn share(&self) -> Result<Self, AllocError>
    where
        Self: Sized,
        ensures { IfOk result (λ other. common other ≡ common self.now) };

    /// The job of a connection that was registered at this registry, and of which no byte was read.
    /// Nothing of the job is done yet.
    fn make(
        self,
        manager: Arc<ConnectionManager>,
        handle: ConnectionHandle,
        source: S,
        sink: K,
    ) -> J
    where
        Self: Sized,
        requires issued { handle.issuer ≡ arc_value manager }
        requires fresh { IsFresh (S.reads source) handle }
        ensures fresh { J.is_fresh result }
        ensures made { makes (common self) handle (source, sink) result };
}

/// Accepts connections, registers each under the next pid, from 1 on, and starts the job that the
/// maker makes of it. It ends after so many connections, or after the one with the greatest pid, and
/// answers their number. It reads no byte of a connection.
///
/// AcceptFault comes where a connection could not be accepted, SpawnFault where a job could not be
/// started, PidTaken where the next pid has a live registration, NoMemory where memory ran out or
/// there was no key. A connection that was accepted then is dropped, and the jobs that were started
/// go on.
pub fn listen_with<
    R: Wait,
    A: Acceptor,
    J: Job,
    M: JobMaker<A::In, A::Out, J>,
    P: Spawner<J>,
    G: KeySource,
>(
    rt: &R,
    acceptor: &mut A,
    spawner: &mut P,
    keys: &mut G,
    manager: Arc<ConnectionManager>,
    door: &mut Door,
    maker: &M,
    count: Option<u64>,
) -> Result<u64, ListenError>
    requires issued { door.old.issuer ≡ arc_value manager }
    requires accepted { A.accepted acceptor.old < 2 ^ 63 }
    requires started { P.started spawner.old < 2 ^ 63 }
    ensures ended { HasEndedSo result count
        (taking_of A.accepted A.faults P.started P.faults acceptor.old spawner.old)
        (taking_of A.accepted A.faults P.started P.faults acceptor.new spawner.new)
        door.old.seen door.new.seen }

    // Each connection became the job of its own pid, in order: where both are told, the jobs that
    // were taken are those of the connections that came.
    ensures jobs { (n : ℕ) × (P.started spawner.new ≡ P.started spawner.old + n)
        × ServesEach (M.makes (M.common maker.now)) (arc_value manager) (A.coming acceptor.old)
        (P.taken spawner.old) (P.taken spawner.new) n }

    // A pid is taken exactly where the door gained Registers of the pids from 1 on, of which the
    // last is its last entry and was answered so, and the others were answered Registered.
    ensures exactly { (m : ℕ) → (result ≡ Err (ListenError.PidTaken m))
        ↔ IsRefusedAt m door.old.seen door.new.seen }
    ensures never_falls { NeverFalls
        (taking_of A.accepted A.faults P.started P.faults acceptor.old spawner.old)
        (taking_of A.accepted A.faults P.started P.faults acceptor.new spawner.new) }
    ensures seen { IsPrefix door.old.seen door.new.seen }
    ensures issued { door.new.issuer ≡ door.old.issuer }
{
    let most = most_connections(count);
    let mut pid = 0;
    'connections: while pid < most {
        pid += 1;
        take_in(rt, acceptor, spawner, keys, &manager, door, maker, pid)?;
    }
    Ok(most)
}

/// How many connections are taken in.
fn most_connections(count: Option<u64>) -> u64
    ensures count { result ≡ connections_of count }
    ensures bound { result ≤ 2147483647 }
{
    match count {
        None => GREATEST_PID,
        Some(count) => count.min(GREATEST_PID),
    }
}

/// Takes in one connection: accepts it, registers it under this pid, and starts its job.
fn take_in<
    R: Wait,
    A: Acceptor,
    J: Job,
    M: JobMaker<A::In, A::Out, J>,
    P: Spawner<J>,
    G: KeySource,
>(
    rt: &R,
    acceptor: &mut A,
    spawner: &mut P,
    keys: &mut G,
    manager: &Arc<ConnectionManager>,
    door: &mut Door,
    maker: &M,
    pid: u64,
) -> Result<(), ListenError>
    requires issued { door.old.issuer ≡ arc_value manager.now }
    requires accepted { A.accepted acceptor.old < greatest_count }
    requires started { P.started spawner.old < greatest_count }
    requires pid { pid ≤ 2147483647 }
    ensures taken { HasTakenIn result pid
        (taking_of A.accepted A.faults P.started P.faults acceptor.old spawner.old)
        (taking_of A.accepted A.faults P.started P.faults acceptor.new spawner.new)
        door.old.seen door.new.seen }
    ensures job { OnOk result (ServesNext (M.makes (M.common maker.now)) (arc_value manager.now)
        (A.coming acceptor.old) (A.coming acceptor.new)
        (P.taken spawner.old) (P.taken spawner.new) pid) }
    ensures untaken { OnErr result (P.taken spawner.new ≡ P.taken spawner.old) }
    ensures goes_on { ServerGoesOn
        (taking_of A.accepted A.faults P.started P.faults acceptor.old spawner.old)
        (taking_of A.accepted A.faults P.started P.faults acceptor.new spawner.new)
        door.old door.new }
{
    let Ok((source, sink)) = acceptor.accept() else {
        return Err(ListenError::AcceptFault);
    };
    let (manager, maker, handle) = admit(rt, keys, manager, door, maker, pid)?;
    start(spawner, maker.make(manager, handle, source, sink))
}

/// Registers a connection under this pid and the next key, and gives what its job shares with the
/// server, and the registration. [`listen_with`] does so for each connection, before the maker makes
/// its job of them. A loop that starts its jobs in another way than by a spawner does the same.
///
/// PidTaken comes where the pid has a live registration, NoMemory where memory ran out or there was
/// no key. Nothing is registered then.
pub fn admit<R: Wait, S: Source, K: Sink, J: Job, M: JobMaker<S, K, J>, G: KeySource>(
    rt: &R,
    keys: &mut G,
    manager: &Arc<ConnectionManager>,
    door: &mut Door,
    maker: &M,
    pid: u64,
) -> Result<(Arc<ConnectionManager>, M, ConnectionHandle), ListenError>
    requires issued { door.old.issuer ≡ arc_value manager.now }
    requires pid { pid ≤ 2147483647 }
    ensures manager { IfOk result (λ admitted. arc_value admitted.0 ≡ arc_value manager.now) }
    ensures maker { IfOk result (λ admitted. M.common admitted.1 ≡ M.common maker.now) }
    ensures handle { IfOk result (λ admitted. (admitted.2.issuer ≡ arc_value manager.now)
        × (admitted.2.pid ≡ pos pid)) }
    ensures fresh { IfOk result (λ admitted. IsFresh 0 admitted.2) }
    ensures admitted { OnOk result (HasAdmitted door.old.seen door.new.seen pid) }
    ensures refused { IfErr result (λ error. IsTurnedAway error pid door.old.seen door.new.seen) }
    ensures door { DoorGoesOn door.old door.new }
{
    let manager = Arc::try_clone(manager)?;
    let maker = maker.share()?;
    let handle = register_next(rt, keys, &manager, door, pid)?;
    Ok((manager, maker, handle))
}

/// Registers a connection under this pid and the next key.
fn register_next<R: Wait, G: KeySource>(
    rt: &R,
    keys: &mut G,
    manager: &ConnectionManager,
    door: &mut Door,
    pid: u64,
) -> Result<ConnectionHandle, ListenError>
    requires issued { door.old.issuer ≡ manager.now }
    requires pid { pid ≤ 2147483647 }
    ensures handle { IfOk result (λ handle. (handle.issuer ≡ manager.now)
        × (handle.pid ≡ pos pid)) }
    ensures fresh { IfOk result (λ handle. IsFresh 0 handle) }
    ensures admitted { OnOk result (HasAdmitted door.old.seen door.new.seen pid) }
    ensures refused { IfErr result (λ error. IsTurnedAway error pid door.old.seen door.new.seen) }
    ensures door { DoorGoesOn door.old door.new }
{
    let key = keys.next_key()?;
    match manager.register(rt, door, pid as i32, key) {
        Ok(handle) => Ok(handle),
        Err(RegisterError::PidTaken(holder)) => Err(ListenError::PidTaken(holder)),
        Err(RegisterError::NoMemory) => Err(ListenError::NoMemory),
    }
}

/// Starts a job.
fn start<J: Job, P: Spawner<J>>(spawner: &mut P, job: J) -> Result<(), ListenError>
    requires started { P.started spawner.old < greatest_count }
    requires fresh { J.is_fresh job }
    ensures ok { OnOk result (P.started spawner.new ≡ P.started spawner.old + 1) }
    ensures taken { OnOk result (Gains (P.taken spawner.old) (P.taken spawner.new) (job ∷ [])) }
    ensures err { IfErr result (λ e. (e ≡ ListenError.SpawnFault)
        × HasRisen (P.faults spawner.old) (P.faults spawner.new)
        × (P.started spawner.new ≡ P.started spawner.old)) }
    ensures untaken { OnErr result (P.taken spawner.new ≡ P.taken spawner.old) }
    ensures never_falls { P.faults spawner.old ≤ P.faults spawner.new }
{
    match spawner.start(job) {
        Ok(()) => Ok(()),
        Err(SpawnFailed {}) => Err(ListenError::SpawnFault),
    }
}

impl From<AllocError> for ListenError {
    ghost use Rattle.std.specs.Prelude.{◌≡◌};
    ghost use Rattle.many_clients.specs.declared.accept_loop.ListenError.{ListenError};

    ghost from_gives = { λ _ error. error ≡ ListenError.NoMemory };

    fn from(_error: AllocError) -> ListenError {
        ListenError::NoMemory
    }
}
