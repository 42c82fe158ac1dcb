//! The service of a client, as a value that a thread may take.

ghost use Rattle.std.specs.Prelude.{◌≡◌};
ghost use Rattle.pg_engine.specs.Serving.{counts_of};
ghost use Rattle.many_clients.specs.Registrations.{HasBeenServed};

use crate::admitted::AdmittedClient;
use crate::registered::{leave, serve_registered};
use client_services::Service;
use conversation_runs::{ServeError, Sink, Source};
use job_threads::{Ended, ThreadJob};
use pg_cancel::{ConnectionHandle, ConnectionManager, Note};
use pg_client::EndKind;
use pg_streams::Job;
use std::alloc::Global;
use std::sync::Wait;

/// The service of a client: what it is served, and the client.
#[derive(Drop)]
pub struct ServiceJob<V, S, K> {
    /// What the client is served.
    pub service: V,
    /// The client.
    pub client: AdmittedClient<S, K>,
}

impl<V: Service, S: Source, K: Sink> ServiceJob<V, S, K> {
    /// Serves the client, as [`serve_registered`] does, and then ends its registration. It hands
    /// back what the service came to, the source, the sink, and what the connection had seen of the
    /// registry's history. Where memory ran out before the registration was ended, it stays.
    pub fn run<R: Wait>(self, rt: &R, alloc: Global) -> (Result<EndKind, ServeError>, S, K, Note)
        ensures { HasBeenServed (V.rules self.service)
            (V.begins self.service self.client.handle.pid self.client.handle.key)
            (V.also self.service) self.client.handle self.client.turn_limit result.0
            (S.left self.client.source) (S.left result.1)
            (K.written self.client.sink) (K.written result.2)
            (counts_of S.reads S.faults K.faults self.client.source self.client.sink)
            (counts_of S.reads S.faults K.faults result.1 result.2) result.3 }
    {
        let ServiceJob { service, client } = self;
        let AdmittedClient {
            manager,
            handle,
            mut source,
            mut sink,
            turn_limit,
        } = client;
        let (answer, note) = serve_and_leave(
            rt,
            alloc,
            &manager,
            handle,
            &service,
            &mut source,
            &mut sink,
            turn_limit,
        );
        (answer, source, sink, note)
    }
}

/// Serves a client and then ends its registration. It hands back what the service came to, and what
/// the connection had seen of the registry's history.
fn serve_and_leave<R: Wait, V: Service, S: Source, K: Sink>(
    rt: &R,
    alloc: Global,
    manager: &ConnectionManager,
    handle: ConnectionHandle,
    service: &V,
    source: &mut S,
    sink: &mut K,
    turn_limit: u64,
) -> (Result<EndKind, ServeError>, Note)
    requires issued { handle.issuer ≡ manager.now }
    ensures { HasBeenServed (V.rules service.now) (V.begins service.now handle.pid handle.key)
        (V.also service.now) handle turn_limit result.0
        (S.left source.old) (S.left source.new) (K.written sink.old) (K.written sink.new)
        (counts_of S.reads S.faults K.faults source.old sink.old)
        (counts_of S.reads S.faults K.faults source.new sink.new) result.1 }
{
    let mut handle = handle;
    let answer = serve_registered(
        rt,
        alloc,
        manager,
        &mut handle,
        service,
        source,
        sink,
        turn_limit,
    );
    (answer, leave(rt, manager, handle))
}

impl<V: Service, S: Source + Drop, K: Sink + Drop> Job for ServiceJob<V, S, K> {
    ghost use Rattle.many_clients.specs.Registrations.{IsFresh};

    ghost is_fresh = { λ job. IsFresh (S.reads job.client.source) job.client.handle };
}

impl<V: Service, S: Source + Drop, K: Sink + Drop> ThreadJob for ServiceJob<V, S, K> {
    ghost use Rattle.pg_engine.specs.Serving.{counts_of};
    ghost use Rattle.many_clients.specs.Registrations.{HasRunBy};

    ghost has_run = { λ job _. HasRunBy (V.rules job.service)
        (V.begins job.service job.client.handle.pid job.client.handle.key) (V.also job.service)
        job.client.handle job.client.turn_limit (S.left job.client.source)
        (K.written job.client.sink)
        (counts_of S.reads S.faults K.faults job.client.source job.client.sink) };

    /// Serves the client and ends its registration, as [`ServiceJob::run`] does. Its source and sink
    /// are dropped.
    fn run_whole<R: Wait>(self, rt: &R, alloc: Global) -> Ended {
        drop(self.run(rt, alloc));
        Ended {}
    }
}
