//! A server listens at a place, and serves each client on a thread of its own by a service of any kind.
//! It starts the threads by a plain call, so a main that can name neither the service nor a closure over
//! it may use it. A client is taken in as the loop over a spawner does it (`admit`).

ghost use Rattle.std.specs.Prelude.{◌≡◌, ◌≤◌, ◌+◌, ◌<◌, ◌^◌, IfOk, OnOk};
ghost use Rattle.std.specs.Arc.{arc_value};
ghost use Rattle.conversation_runs.specs.Streams.{greatest_count};

use client_listening::{AdmittedClient, ListenError, ServiceThreads, SharedService, TURNS};
use listening_places::{ListenPlace, bind_place, leave_place};
use many_clients::{AdmittedClients, JobMaker, admit};
use pg_cancel::{ConnectionManager, Door};
use pg_streams::{Acceptor, KeySource, MaybeTls, RandomKeys};
use std::alloc::{AllocError, Global};
use std::fs::Files;
use std::net::{Net, TcpListener, TcpStream};
use std::random::RandomSource;
use std::sync::{Arc, Wait};
use std::thread::Threads;
use std::time::Clock;

/// The greatest pid.
const GREATEST_PID: u64 = 2_147_483_647;

/// Listens at a place, and serves each client that comes by a service, on a thread of its own. It
/// answers as `listen_at` does, for the same causes.
pub(crate) fn listen_over<
    R: Threads
        + Wait
        + Net<Stream = TcpStream, Listener = TcpListener>
        + Files
        + Clock
        + RandomSource
        + AllocGlobal
        + Print
        + Copy
        + Send
        + Drop
        + 'static,
    V: SharedService + Send + 'static,
>(
    rt: R,
    place: ListenPlace<'_>,
    count: Option<u64>,
    server: &ServiceThreads<V>,
) -> Result<u64, ListenError> {
    let mut keys = RandomKeys::new(rt.alloc(), rt);
    let mut acceptor = bind_place(rt, place);
    let answer = take_in_each(rt, rt.alloc(), &mut acceptor, &mut keys, count, server);
    leave_place(&rt, place, acceptor);
    server.threads.finish(&rt);
    answer
}

/// Takes in the clients that an acceptor gives, at a new registry that they share, and starts the
/// service of each.
fn take_in_each<
    R: Threads + Wait + Clock + Copy + Send + 'static,
    A: Acceptor<In = MaybeTls, Out = MaybeTls>,
    G: KeySource,
    V: SharedService + Send + 'static,
>(
    rt: R,
    alloc: Global,
    acceptor: &mut A,
    keys: &mut G,
    count: Option<u64>,
    server: &ServiceThreads<V>,
) -> Result<u64, ListenError>
    requires accepted { A.accepted acceptor.old < 2 ^ 63 }
{
    let (manager, mut door) = shared_registry(alloc)?;
    let most = count.unwrap_or(GREATEST_PID).min(GREATEST_PID);
    let mut pid = 0;
    'connections: while pid < most {
        pid += 1;
        take_in(rt, acceptor, keys, &manager, &mut door, pid, server)?;
    }
    Ok(most)
}

/// An empty registry that clients share, and its door.
fn shared_registry(alloc: Global) -> Result<(Arc<ConnectionManager>, Door), AllocError>
    ensures issued { IfOk result (λ registry. registry.1.issuer ≡ arc_value registry.0) }
{
    let (manager, door) = ConnectionManager::new(alloc)?;
    let manager = Arc::new(alloc, manager)?;
    Ok((manager, door))
}

/// Takes in one client: accepts its connection, registers it under this pid, and starts its service.
fn take_in<
    R: Threads + Wait + Clock + Copy + Send + 'static,
    A: Acceptor<In = MaybeTls, Out = MaybeTls>,
    G: KeySource,
    V: SharedService + Send + 'static,
>(
    rt: R,
    acceptor: &mut A,
    keys: &mut G,
    manager: &Arc<ConnectionManager>,
    door: &mut Door,
    pid: u64,
    server: &ServiceThreads<V>,
) -> Result<(), ListenError>
    requires issued { door.old.issuer ≡ arc_value manager.now }
    requires accepted { A.accepted acceptor.old < greatest_count }
    requires pid { pid ≤ 2147483647 }
    ensures accepted { OnOk result (A.accepted acceptor.new ≡ A.accepted acceptor.old + 1) }
    ensures issued { door.new.issuer ≡ door.old.issuer }
{
    let Ok((source, sink)) = acceptor.accept() else {
        return Err(ListenError::AcceptFault);
    };
    let clients = AdmittedClients { turn_limit: TURNS };
    let (manager, clients, handle) = admit::<
        _,
        MaybeTls,
        MaybeTls,
        AdmittedClient<MaybeTls, MaybeTls>,
        _,
        _,
    >(&rt, keys, manager, door, &clients, pid)?;
    start(rt, server, clients.make(manager, handle, source, sink))
}

/// Starts the service of a client on a thread of its own.
fn start<R: Threads + Wait + Clock + Copy + Send + 'static, V: SharedService + Send + 'static>(
    rt: R,
    server: &ServiceThreads<V>,
    client: AdmittedClient<MaybeTls, MaybeTls>,
) -> Result<(), ListenError> {
    if server
        .threads
        .start_made(rt, server.job_of(client))
        .is_started
    {
        Ok(())
    } else {
        Err(ListenError::SpawnFault)
    }
}
