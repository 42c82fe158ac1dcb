//! What the tests share: a server for two owners, and a registry.

ghost use Rattle.std.specs.Prelude.{◌≡◌, IfSome};
ghost use Rattle.many_clients.specs.Registrations.{IsFresh};
ghost use Rattle.pg_streams.specs.Sockets.{reads_of};

use crate::refusing::RefusingService;
use client_listening::{AdmittedClient, ServiceThreads};
use pg_streams::{Counted, MaybeTls};
use sample_registry::Registry;
use std::alloc::Global;
use std::net::Net;
use std::os::unix::net::UnixStream;
use std::sync::{Arc, Wait};
use std::thread::Threads;
use std::time::Clock;

/// A server of handlers that implement nothing, for two owners, and the registry of its clients.
#[derive(Drop)]
pub(crate) struct Stage {
    /// Who waits for the clients.
    pub(crate) server: ServiceThreads<RefusingService>,
    jobs: ServiceThreads<RefusingService>,
    /// The registry.
    pub(crate) registry: Registry,
}

/// The client at a stream, under this pid.
fn admitted<R: Wait>(
    rt: &R,
    registry: &mut Registry,
    pid: i32,
    stream: UnixStream,
) -> Option<AdmittedClient<MaybeTls, MaybeTls>>
    ensures { IfSome result (λ client. IsFresh (reads_of client.source) client.handle) }
{
    let second = stream.try_clone().ok()?;
    let manager = Arc::try_clone(&registry.manager).ok()?;
    let handle = registry.register(rt, pid)?;
    Some(AdmittedClient {
        manager,
        handle,
        source: MaybeTls::Unix(Counted::new(stream)),
        sink: MaybeTls::Unix(Counted::new(second)),
        turn_limit: 100,
    })
}

/// Starts the service of a client under this pid. It answers the client's end, where that needed one
/// try.
fn start<R: Threads + Wait + Clock + Net + Copy + Send + 'static>(
    rt: R,
    jobs: &ServiceThreads<RefusingService>,
    registry: &mut Registry,
    pid: i32,
) -> Option<UnixStream> {
    let (stream, served) = UnixStream::pair(&rt).ok()?;
    let client = admitted(&rt, registry, pid, served)?;
    let tries = jobs.threads.start_made(rt, jobs.job_of(client));
    if tries.is_started && tries.failed == 0 {
        Some(stream)
    } else {
        None
    }
}

impl Stage {
    /// Nobody is served yet.
    pub(crate) fn new(alloc: Global) -> Option<Stage> {
        let service = RefusingService::new(alloc).ok()?;
        let (server, jobs) = ServiceThreads::for_two(alloc, service).ok()?;
        Some(Stage {
            server,
            jobs,
            registry: Registry::new(alloc)?,
        })
    }

    /// Starts the service of a client under this pid. It answers the client's end, where that needed
    /// one try.
    pub(crate) fn start<R: Threads + Wait + Clock + Net + Copy + Send + 'static>(
        &mut self,
        rt: R,
        pid: i32,
    ) -> Option<UnixStream> {
        start(rt, &self.jobs, &mut self.registry, pid)
    }

    /// The same by an owner who comes for this alone, and goes.
    pub(crate) fn start_by_another<R: Threads + Wait + Clock + Net + Copy + Send + 'static>(
        &mut self,
        rt: R,
        pid: i32,
    ) -> Option<UnixStream> {
        let other = self.server.share().ok()?;
        start(rt, &other, &mut self.registry, pid)
    }
}
