//! A client that was taken in is served to its end, also where the server can accept no other.

ghost use Rattle.std.specs.Prelude.{◌≡◌, IfSome};
ghost use Rattle.pg_streams.specs.Sockets.{reads_of};

use crate::clients::is_served;
use crate::refusing::RefusingService;
use client_listening::{AdmittedClient, ServiceThreads};
use many_clients::{
    AdmittedClients, ClientSpawner, JobThreads, ListenError, ServiceJob, StartClient, listen_with,
};
use pg_messages::SecretKey;
use pg_streams::{AcceptFailed, Acceptor, Counted, KeySource, MaybeTls};
use sample_registry::Registry;
use std::alloc::{AllocError, Global};
use std::net::Net;
use std::os::unix::net::UnixStream;
use std::sync::{Arc, Wait};

/// A client at a socket that was taken in.
type SocketClient = AdmittedClient<MaybeTls, MaybeTls>;

/// A server of handlers that implement nothing.
type Server = ServiceThreads<RefusingService>;

/// Its threads.
type ServerThreads = JobThreads<ServiceJob<RefusingService, MaybeTls, MaybeTls>>;

/// The two ends of a stream at the server.
fn ends_of(stream: UnixStream) -> Option<(MaybeTls, MaybeTls)>
    ensures { IfSome result (λ ends. reads_of ends.0 ≡ 0) }
{
    let second = stream.try_clone().ok()?;
    Some((
        MaybeTls::Unix(Counted::new(stream)),
        MaybeTls::Unix(Counted::new(second)),
    ))
}

/// Gives the connection of this stream, and fails behind it.
#[derive(Drop)]
struct OneStream {
    stream: Option<UnixStream>,
    accepted: u64,
    faults: u64,
}

/// The ends of a stream, where it is still there.
fn taken_ends(stream: &mut Option<UnixStream>) -> Option<(MaybeTls, MaybeTls)>
    ensures { IfSome result (λ ends. reads_of ends.0 ≡ 0) }
{
    ends_of(stream.take()?)
}

impl Acceptor for OneStream {
    type In = MaybeTls;

    type Out = MaybeTls;

    ghost faults = { λ a. a.faults };

    ghost accepted = { λ a. a.accepted };

    fn accept(&mut self) -> Result<(MaybeTls, MaybeTls), AcceptFailed> {
        match taken_ends(&mut self.stream) {
            Some(ends) => {
                self.accepted += 1;
                Ok(ends)
            }
            None => {
                self.faults = self.faults.saturating_add(1);
                Err(AcceptFailed {})
            }
        }
    }
}

/// Gives each client the key with the bytes 1, 2, 3 and 4.
#[derive(Drop)]
struct OneKey {
    alloc: Global,
}

impl KeySource for OneKey {
    fn next_key(&mut self) -> Result<SecretKey, AllocError> {
        SecretKey::try_new(self.alloc, &[1, 2, 3, 4]).map_err(|_| AllocError)
    }
}

/// A client comes whom a spawner takes, and then no other can. It answers whether that was told, and
/// gives the client's end.
fn listen<R: Wait + Net>(
    rt: &R,
    registry: &mut Registry,
    spawner: &mut ClientSpawner<ServerThreads>,
) -> Option<(UnixStream, bool)>
    requires started { spawner.old.started ≡ 0 }
{
    let (client, served) = UnixStream::pair(rt).ok()?;
    let mut acceptor = OneStream {
        stream: Some(served),
        accepted: 0,
        faults: 0,
    };
    let mut keys = OneKey {
        alloc: registry.alloc,
    };
    let manager = Arc::try_clone(&registry.manager).ok()?;
    let clients = AdmittedClients { turn_limit: 100 };
    let ended = listen_with::<_, _, SocketClient, _, _, _>(
        rt,
        &mut acceptor,
        spawner,
        &mut keys,
        manager,
        &mut registry.door,
        &clients,
        None,
    );
    let is_told = matches!(ended, Err(ListenError::AcceptFault));
    Some((client, is_told))
}

/// Whether a client whom a spawner takes is served whole behind the end of its server, which can
/// accept no other, and its pid is free then.
fn is_left_served<R: Wait + Net>(
    rt: &R,
    alloc: Global,
    threads: ServerThreads,
    start: StartClient,
) -> Option<bool>
    requires ready { IsAlwaysCallable start }
{
    let mut registry = Registry::new(alloc)?;
    let mut spawner = ClientSpawner::new(threads, start);
    let (mut client, is_told) = listen(rt, &mut registry, &mut spawner)?;
    let is_served = is_served(&mut client, 1);
    spawner.threads.finish(rt);
    Some(is_told && is_served && registry.is_free(rt, 1))
}

/// A server of handlers that implement nothing, for two owners.
fn two_owners(alloc: Global) -> Option<(Server, Server)> {
    let service = RefusingService::new(alloc).ok()?;
    ServiceThreads::for_two(alloc, service).ok()
}

/// A client is served whole behind the end of its server, which can accept no other.
#[test]
fn a_client_is_served_where_no_other_is_accepted(rt: HostRuntime) {
    let alloc = rt.alloc();
    let told = match two_owners(alloc) {
        Some((server, jobs)) => match Box::new(
            alloc,
            move |client| jobs.threads.start_made(rt, jobs.job_of(client)),
        ) {
            Ok(start) => is_left_served(&rt, alloc, server.threads, start),
            Err(_) => None,
        },
        None => None,
    };
    assert!(rt; told == Some(true));
}
