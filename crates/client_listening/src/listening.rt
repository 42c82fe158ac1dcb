//! A server listens at a place, and takes in the clients that come.

ghost use Rattle.std.specs.Prelude.{◌≡◌, [], IfOk};
ghost use Rattle.std.specs.Arc.{arc_value};
ghost use Rattle.many_clients.specs.Listening.{HasRoom, NeverFalls, connections_of, taking_of};
ghost use Rattle.client_listening.specs.Listening.{HasEndedOver, TakesInEach};

use crate::client_threads::ClientThreads;
use listening_places::{ListenPlace, bind_place, leave_place};
use many_clients::{AdmittedClient, AdmittedClients, ListenError, listen_with};
use pg_cancel::{ConnectionManager, Door};
use pg_streams::{Acceptor, KeySource, RandomKeys, Spawner};
use std::alloc::{AllocError, Global};
use std::fs::Files;
use std::net::{Net, TcpListener, TcpStream};
use std::random::RandomSource;
use std::sync::{Arc, Wait};
use std::time::Clock;

/// How many reads and polls a client of a program has, where its words tell none.
pub const TURNS: u64 = 1_000_000_000;

/// Listens at a place, and starts the service of each client that comes, with so many turns, on a
/// thread of its own. The clients are registered at one new registry, under random keys and the pids
/// from 1 on. It takes in as many clients as the count says, or as there are pids, leaves the place,
/// and waits until each service has ended. It answers how many were taken in.
///
/// AcceptFault comes where the place can't be bound, or a connection can't be accepted; SpawnFault
/// where a service can't be started; NoMemory where memory ran out, or there were no random bytes for
/// a key. Then too the place is left, and the services that were started are waited for.
pub fn listen_at<
    R: Wait
        + Net<Stream = TcpStream, Listener = TcpListener>
        + Files
        + Clock
        + RandomSource
        + AllocGlobal
        + Print
        + Copy
        + Drop,
    T: ClientThreads + Drop,
>(
    rt: R,
    place: ListenPlace<'_>,
    count: Option<u64>,
    turn_limit: u64,
    threads: T,
) -> Result<u64, ListenError>
    requires started { T.started threads ≡ 0 }
    ensures counted { IfOk result (λ n. n ≡ connections_of count) }
{
    let mut threads = threads;
    let mut keys = RandomKeys::new(rt.alloc(), rt);
    let mut acceptor = bind_place(rt, place);
    let answer = take_in_clients(
        &rt,
        rt.alloc(),
        &mut acceptor,
        &mut threads,
        &mut keys,
        count,
        turn_limit,
    );
    leave_place(&rt, place, acceptor);
    threads.finish(&rt);
    answer
}

/// Takes in the clients that an acceptor gives, as [`listen_with`] does, with so many turns each, and
/// with a new registry that they share.
pub fn take_in_clients<
    R: Wait,
    A: Acceptor,
    P: Spawner<AdmittedClient<A::In, A::Out>>,
    G: KeySource,
>(
    rt: &R,
    alloc: Global,
    acceptor: &mut A,
    spawner: &mut P,
    keys: &mut G,
    count: Option<u64>,
    turn_limit: u64,
) -> Result<u64, ListenError>
    requires room { HasRoom (A.accepted acceptor.old) (P.started spawner.old) }
    ensures ended { HasEndedOver result count
        (taking_of A.accepted A.faults P.started P.faults acceptor.old spawner.old)
        (taking_of A.accepted A.faults P.started P.faults acceptor.new spawner.new) }

    // Each connection became a client of its own pid, in order, with these turns.
    ensures clients { TakesInEach turn_limit (A.coming acceptor.old)
        (P.started spawner.old) (P.started spawner.new)
        (P.taken spawner.old) (P.taken spawner.new) }
    ensures never_falls { NeverFalls
        (taking_of A.accepted A.faults P.started P.faults acceptor.old spawner.old)
        (taking_of A.accepted A.faults P.started P.faults acceptor.new spawner.new) }
{
    let (manager, mut door) = shared_registry(alloc)?;
    let clients = AdmittedClients { turn_limit };
    listen_with(
        rt, acceptor, spawner, keys, manager, &mut door, &clients, count,
    )
}

/// An empty registry that clients share, and its door.
fn shared_registry(alloc: Global) -> Result<(Arc<ConnectionManager>, Door), AllocError>
    ensures issued { IfOk result (λ registry. registry.1.issuer ≡ arc_value registry.0) }
    ensures empty { IfOk result (λ registry. registry.1.seen ≡ []) }
{
    let (manager, door) = ConnectionManager::new(alloc)?;
    let manager = Arc::new(alloc, manager)?;
    Ok((manager, door))
}
