//! One client is served, whom no other can cancel.

ghost use Rattle.std.specs.Prelude.{◌≡◌, ℕ, List, OnOk};
ghost use Rattle.std.specs.Arc.{arc_value};
ghost use Rattle.pg_client.specs.State.{first_state};
ghost use Rattle.pg_client.specs.declared.desk.DeskCall.{DeskCall};
ghost use Rattle.conversation_runs.specs.Session.{whole_rules};
ghost use Rattle.pg_engine.specs.Completeness.{IsCompleteWithin, OweAtMost};
ghost use Rattle.pg_engine.specs.Around.{around};
ghost use Rattle.pg_engine.specs.Serving.{IsCalm, WentSo, counts_of};
ghost use Rattle.pg_client.specs.Desk.{DeskTold};
ghost use Rattle.client_services.specs.Served.{IsServedBy};

use client_listening::TURNS;
use client_services::Service;
use pg_messages::{PgList, SecretKey};
use pg_portal::MemPortalStore;
use pg_serve::serve_connection;
use pg_session::{EndKind, PgWireServerHandlers, ScriptDesk, ServeError, Sink, Source};
use std::alloc::Global;
use std::sync::Arc;

/// Serves the client of a source and a sink under a process id and a key. No other client can cancel
/// its queries, since it is in no registry.
pub fn serve_client<H: PgWireServerHandlers, S: Source, K: Sink>(
    alloc: Global,
    handlers: Arc<H>,
    pid: i32,
    key: SecretKey,
    source: &mut S,
    sink: &mut K,
) -> Result<EndKind, ServeError>
    // What is written is the answer of the conversation table over what the handlers tell.
    ensures went { (calls : List DeskCall)
        × WentSo (whole_rules (H.told (arc_value handlers))) (first_state pid key) result
        (S.left source.old) (S.left source.new) (K.written sink.old) (K.written sink.new) calls }
    ensures calm { OnOk result (IsCalm (counts_of S.reads S.faults K.faults source.old sink.old)
        (counts_of S.reads S.faults K.faults source.new sink.new)) }

    // With turns enough the client is served to the end: so many polls as a query owes at most, for
    // each message that runs one.
    ensures complete { (most : ℕ) → OweAtMost (H.told (arc_value handlers)) most
        → IsCompleteWithin most 1000000000 result (S.left source.old)
        (counts_of S.reads S.faults K.faults source.old sink.old)
        (counts_of S.reads S.faults K.faults source.new sink.new) }
{
    let mut desk = ScriptDesk::new(alloc, pid, key, PgList::new(alloc));
    let store = MemPortalStore::new(alloc);
    serve_connection(alloc, handlers, store, &mut desk, source, sink, TURNS)
}

/// Serves the client of a source and a sink by a service, under a process id and a key. No other client
/// can cancel its queries, since it is in no registry.
pub fn serve_one<V: Service, S: Source, K: Sink>(
    alloc: Global,
    service: &V,
    pid: i32,
    key: SecretKey,
    source: &mut S,
    sink: &mut K,
) -> Result<EndKind, ServeError>
    ensures { (desk last : DeskTold) × (desk.registration ≡ (pid, key))
        × (let round = around S.left S.reads S.faults S.origin K.written K.faults K.origin (λ d. d) in
        IsServedBy (V.rules service.now) (V.begins service.now pid key) (V.also service.now)
        1000000000 result (round source.old sink.old desk) (round source.new sink.new last)) }
{
    let mut script = ScriptDesk::new(alloc, pid, key, PgList::new(alloc));
    service.serve(alloc, &mut script, source, sink, TURNS)
}

/// What serves the one client of a program.
pub(crate) trait ServesOne: Drop {
    /// Serves the client of a source and a sink.
    fn serve_one<S: Source, K: Sink>(
        self,
        alloc: Global,
        pid: i32,
        key: SecretKey,
        source: &mut S,
        sink: &mut K,
    ) -> Result<EndKind, ServeError>
    where
        Self: Sized;
}

/// Handlers serve it.
#[derive(Drop)]
pub(crate) struct OverHandlers<H> {
    pub(crate) handlers: Arc<H>,
}

impl<H: PgWireServerHandlers> ServesOne for OverHandlers<H> {
    fn serve_one<S: Source, K: Sink>(
        self,
        alloc: Global,
        pid: i32,
        key: SecretKey,
        source: &mut S,
        sink: &mut K,
    ) -> Result<EndKind, ServeError> {
        serve_client(alloc, self.handlers, pid, key, source, sink)
    }
}

/// A service serves it.
#[derive(Drop)]
pub(crate) struct OverService<V> {
    pub(crate) service: V,
}

impl<V: Service> ServesOne for OverService<V> {
    fn serve_one<S: Source, K: Sink>(
        self,
        alloc: Global,
        pid: i32,
        key: SecretKey,
        source: &mut S,
        sink: &mut K,
    ) -> Result<EndKind, ServeError> {
        serve_one(alloc, &self.service, pid, key, source, sink)
    }
}
