//! A client is served on where the next connection's job can't be started.

ghost use Rattle.std.specs.Prelude.{◌≡◌};

use crate::clients::{STARTUP, is_at_its_end, reads, sends};
use crate::socket_tests::{bound, taken_in, threads_of};
use pg_serve::MaybeTls;
use relation_server::{ConnectionJob, JobThreads, ListenError, StartJob, ThreadSpawner, Tries};
use sample_registry::Registry;
use std::alloc::Global;
use std::net::{Net, SocketAddr, TcpListener, TcpStream};
use std::random::RandomSource;
use std::sync::Wait;
use std::sync::atomic::{AtomicBool, Ordering};
use std::test::Fail;
use std::thread;
use std::thread::Threads;
use std::time::Clock;

/// The replies to a blank Query: EmptyQueryResponse, ReadyForQuery.
const NOTHING: &[u8] = b"I\0\0\0\x04Z\0\0\0\x05I";

/// Whether a client that is served asks a blank query, is answered, and leaves.
fn is_served_on(stream: &mut TcpStream) -> bool {
    let mut reply = [0u8; NOTHING.len()];
    sends(stream, b"Q\0\0\0\x06;\0")
        && reads(stream, &mut reply)
        && reply.as_slice() == NOTHING
        && sends(stream, b"X\0\0\0\x04")
        && is_at_its_end(stream)
}

/// Whether one client is greeted; then another's connection is given up, of which no byte was
/// answered; and then the first is still served.
fn is_kept<R: Net<Stream = TcpStream>>(rt: &R, server: SocketAddr) -> Option<bool> {
    let mut kept = TcpStream::connect(rt, server).ok()?;
    let is_greeted = sends(&mut kept, STARTUP) && reads(&mut kept, &mut [0u8; 131]);
    let mut other = TcpStream::connect(rt, server).ok()?;
    let is_given_up = is_at_its_end(&mut other);
    Some(is_greeted && is_given_up && is_served_on(&mut kept))
}

/// Starts the first job on a thread, and no other one.
fn start_first<R: Threads + Wait + Clock + Copy + Send + 'static>(
    rt: R,
    threads: &JobThreads,
    has_started: &AtomicBool,
    job: ConnectionJob<MaybeTls, MaybeTls>,
) -> Tries {
    if has_started.load(Ordering::SeqCst) {
        return Tries {
            is_started: false,
            failed: 1,
        };
    }
    has_started.store(true, Ordering::SeqCst);
    threads.start(rt, job)
}

/// Whether a server of three connections stops with SpawnFault at the second, while the first client
/// is served on. Behind that client's end its registration has ended, and that of the connection
/// without a job stays.
fn is_kept_beside<
    R: Threads
        + Wait
        + Clock
        + Net<Stream = TcpStream, Listener = TcpListener>
        + RandomSource
        + Copy
        + Drop
        + Send
        + 'static,
>(rt: R, alloc: Global, spawner: &mut ThreadSpawner<JobThreads>) -> Option<bool>
    requires started { spawner.old.started ≡ 0 }
{
    let (listener, server) = bound(&rt)?;
    let clients = thread::spawn(&rt, move || is_kept(&rt, server)).ok()?;
    let mut registry = Registry::new(alloc)?;
    let answer = taken_in(rt, &mut registry, listener, spawner, 3);
    spawner.threads.finish(&rt);
    let is_kept = clients.join(&rt) == Some(true);
    let is_stopped = answer == Some(Err(ListenError::SpawnFault));
    Some(is_stopped && is_kept && registry.is_free(&rt, 1) && !registry.is_free(&rt, 2))
}

/// Where the job of a connection can't be started, the jobs that run are served to their ends.
#[test]
fn a_client_is_served_behind_a_spawn_fault(rt: HostRuntime) -> Result<(), Fail> {
    let (threads, theirs) = threads_of(rt.alloc())?;
    let has_started = AtomicBool::new(false);
    let start: StartJob = Box::new(rt.alloc(), move |job| {
        start_first(rt, &theirs, &has_started, job)
    })?;
    let mut spawner = ThreadSpawner::new(threads, start);
    assert!(rt; is_kept_beside(rt, rt.alloc(), &mut spawner) == Some(true));
    Ok(())
}
