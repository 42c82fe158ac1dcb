//! Clients that are served side by side over TCP, and cancels of their queries.

ghost use Rattle.std.specs.Prelude.{◌≡◌};

use crate::clients::{CANCELED, STARTUP, STARTUP_3_2, is_at_its_end, reads, sends, shared_over};
use crate::relations::endless_table;
use pg_serve::{Listening, RandomKeys, SocketAcceptor};
use relation_server::{
    JobThreads, ListenError, StartJob, ThreadSpawner, jobs_cross_threads, listen,
};
use sample_registry::Registry;
use std::alloc::{AllocError, Global};
use std::io::Read;
use std::net::{Net, SocketAddr, TcpListener, TcpStream};
use std::random::RandomSource;
use std::sync::Wait;
use std::test::Fail;
use std::thread;
use std::thread::Threads;
use std::time::{Clock, Duration};

/// How often a query is canceled.
const CANCELS: u32 = 50;

/// Two clients, and the cancels of their queries: 50 for the one, and twice as many for the other.
const CONNECTIONS: u64 = 152;

/// The pids of the clients, and that of the last connection.
const PIDS: [i32; 3] = [1, 52, 152];

/// How many milliseconds pass between two cancels.
const PAUSE: u64 = 4;

/// Whether one CancelRequest, with its length, of this pid and key is sent, and the server ends the
/// connection then.
fn cancels<R: Net<Stream = TcpStream>>(
    rt: &R,
    server: SocketAddr,
    length: u8,
    registration: &[u8],
) -> bool {
    let head = [0, 0, 0, length, 0x04, 0xd2, 0x16, 0x2e];
    match TcpStream::connect(rt, server) {
        Ok(mut stream) => {
            sends(&mut stream, &head)
                && sends(&mut stream, registration)
                && is_at_its_end(&mut stream)
        }
        Err(_) => false,
    }
}

/// Whether that is so of many connections, one after another. Some come while the query runs.
fn cancels_often<R: Net<Stream = TcpStream> + Clock>(
    rt: &R,
    server: SocketAddr,
    length: u8,
    registration: &[u8],
) -> bool {
    let mut are_so = true;
    for _ in 0..CANCELS {
        are_so = are_so && cancels(rt, server, length, registration);
        rt.sleep(Duration::from_millis(PAUSE));
    }
    are_so
}

/// Whether a client reads what it is told after its startup packet, and asks a query that never
/// ends.
fn asks(stream: &mut TcpStream, startup: &[u8], begun: &mut [u8]) -> bool {
    sends(stream, startup) && reads(stream, begun) && sends(stream, b"Q\0\0\0\x0cendless\0")
}

/// Whether nothing was told to a client yet.
fn is_silent(stream: &mut TcpStream) -> bool {
    let is_set = stream.set_nonblocking(true).is_ok();
    let is_silent = stream.read(&mut [0u8; 1]).is_err();
    is_set && is_silent && stream.set_nonblocking(false).is_ok()
}

/// Whether a client is told that its query was canceled, and nothing else before the connection ends
/// after its Terminate.
fn is_told(stream: &mut TcpStream) -> bool {
    let mut reply = [0u8; CANCELED.len()];
    reads(stream, &mut reply)
        && reply.as_slice() == CANCELED
        && sends(stream, b"X\0\0\0\x04")
        && is_at_its_end(stream)
}

/// Whether a query of a client of 3.0 is canceled by the key that it is told. The pid and the key
/// are the last eight of the 125 bytes up to the end of BackendKeyData; six bytes of ReadyForQuery
/// follow.
fn is_canceled<R: Net<Stream = TcpStream> + Clock>(
    rt: &R,
    server: SocketAddr,
    stream: &mut TcpStream,
) -> bool {
    let mut begun = [0u8; 131];
    asks(stream, STARTUP, &mut begun)
        && cancels_often(rt, server, 16, &begun[117..125])
        && is_told(stream)
}

/// Whether a query of a client of 3.2 is canceled by the whole key that it is told, of 32 bytes,
/// and not by its first four bytes.
fn is_canceled_by_a_long_key<R: Net<Stream = TcpStream> + Clock>(
    rt: &R,
    server: SocketAddr,
    stream: &mut TcpStream,
) -> bool {
    let mut begun = [0u8; 159];
    asks(stream, STARTUP_3_2, &mut begun)
        && cancels_often(rt, server, 16, &begun[117..125])
        && is_silent(stream)
        && cancels_often(rt, server, 44, &begun[117..153])
        && is_told(stream)
}

/// Whether that holds of a new client: the case of 3.2 if `is_long`, and else that of 3.0.
fn is_one_canceled<R: Net<Stream = TcpStream> + Clock>(
    rt: &R,
    server: SocketAddr,
    is_long: bool,
) -> bool {
    match TcpStream::connect(rt, server) {
        Ok(mut stream) => {
            if is_long {
                is_canceled_by_a_long_key(rt, server, &mut stream)
            } else {
                is_canceled(rt, server, &mut stream)
            }
        }
        Err(_) => false,
    }
}

/// Whether both cases hold, one after another.
fn are_canceled<R: Net<Stream = TcpStream> + Clock>(rt: &R, server: SocketAddr) -> bool {
    let is_canceled = is_one_canceled(rt, server, false);
    is_one_canceled(rt, server, true) && is_canceled
}

/// What comes of taking in so many connections to a listener, over a relation whose query finds as
/// many polls unready as there can be.
pub(crate) fn taken_in<R: Wait + Clock + RandomSource + Copy + Drop>(
    rt: R,
    registry: &mut Registry,
    listener: TcpListener,
    spawner: &mut ThreadSpawner<JobThreads>,
    count: u64,
) -> Option<Result<u64, ListenError>>
    requires started { spawner.old.started ≡ 0 }
{
    let table = endless_table(registry.alloc).ok()?;
    let (manager, relations) = shared_over(registry, table)?;
    let mut acceptor = SocketAcceptor::new(Listening::Tcp(listener), rt);
    let answer = listen(
        &rt,
        &mut acceptor,
        spawner,
        &mut RandomKeys::new(registry.alloc, rt),
        manager,
        &mut registry.door,
        relations,
        500_000_000,
        Some(count),
    );
    Some(answer)
}

/// Whether the pids of both clients and the last are free.
fn are_free<R: Wait>(rt: &R, registry: &mut Registry) -> bool {
    let mut are_so = true;
    for pid in PIDS {
        are_so = are_so && registry.is_free(rt, pid);
    }
    are_so
}

/// A listener at a free port, and its address.
pub(crate) fn bound<R: Net<Stream = TcpStream, Listener = TcpListener>>(
    rt: &R,
) -> Option<(TcpListener, SocketAddr)> {
    let listener = TcpListener::bind(rt, "127.0.0.1:0").ok()?;
    let server = listener.local_addr().ok()?;
    Some((listener, server))
}

/// Whether all connections are taken in while another thread cancels the queries of two clients; and
/// the jobs run to their ends, and then have ended their registrations.
fn are_served_beside<
    R: Threads
        + Wait
        + Clock
        + Net<Stream = TcpStream, Listener = TcpListener>
        + RandomSource
        + Copy
        + Drop
        + Send
        + 'static,
>(rt: R, alloc: Global, spawner: &mut ThreadSpawner<JobThreads>) -> Option<bool>
    requires started { spawner.old.started ≡ 0 }
{
    let (listener, server) = bound(&rt)?;
    let client = thread::spawn(&rt, move || are_canceled(&rt, server)).ok()?;
    let mut registry = Registry::new(alloc)?;
    let answer = taken_in(rt, &mut registry, listener, spawner, CONNECTIONS);
    spawner.threads.finish(&rt);
    let are_canceled = client.join(&rt);
    Some(are_canceled && answer == Some(Ok(CONNECTIONS)) && are_free(&rt, &mut registry))
}

/// The same where jobs are started in this way.
fn are_served_on<
    R: Threads
        + Wait
        + Clock
        + Net<Stream = TcpStream, Listener = TcpListener>
        + RandomSource
        + Copy
        + Drop
        + Send
        + 'static,
>(rt: R, alloc: Global, threads: JobThreads, start: StartJob) -> Option<bool>
    requires ready { IsAlwaysCallable start }
{
    let mut spawner = ThreadSpawner::new(threads, start);
    are_served_beside(rt, alloc, &mut spawner)
}

/// Threads for jobs, for two owners.
pub(crate) fn threads_of(alloc: Global) -> Result<(JobThreads, JobThreads), AllocError> {
    let threads = JobThreads::new(alloc)?;
    let theirs = threads.share()?;
    Ok((threads, theirs))
}

/// Queries that never end are canceled while their connections are being served and others come.
/// Each job then ends, and has ended its registration.
#[test]
fn a_query_is_canceled_over_tcp(rt: HostRuntime) -> Result<(), Fail> {
    jobs_cross_threads();
    let (threads, theirs) = threads_of(rt.alloc())?;
    let start: StartJob = Box::new(rt.alloc(), move |job| theirs.start(rt, job))?;
    assert!(rt; are_served_on(rt, rt.alloc(), threads, start) == Some(true));
    Ok(())
}
