//! A cancel by another connection, while a query is being made or polled. The client waits for its
//! replies before it asks.

ghost use Rattle.std.specs.Prelude.{◌≡◌};
ghost use Rattle.std.specs.Arc.{arc_value};

use pg_cancel::{ConnectionHandle, ConnectionManager};
use pg_handlers::{NoRows, NoopHandler, PolledQuery, QueryState, SimpleQueryHandler, Turn};
use pg_messages::{PgList, SecretKey};
use pg_portal::{ClientInfo, MemPortalStore, PgWireError, Response};
use pg_serve::{HandleDesk, MemorySink, serve_connection};
use pg_session::{
    EndKind, PgWireServerHandlers, ServeError, Sink, SinkError, Source, SourceFailed,
};
use sample_registry::Registry;
use std::alloc::{AllocError, Global};
use std::cell::Cell;
use std::sync::{Arc, Wait};

/// What a client sends, read by read: a startup packet of version 3.0 with `user` `demo`; a Query;
/// Terminate.
const PIECES: [&[u8]; 3] = [
    b"\0\0\0\x13\0\x03\0\0user\0demo\0\0",
    b"Q\0\0\0\x06x\0",
    b"X\0\0\0\x04",
];

/// The last of the replies to a startup packet.
const READY: &[u8] = b"Z\0\0\0\x05I";

/// The replies to the Query: ErrorResponse, ReadyForQuery.
const CANCELED: &[u8] =
    b"E\0\0\0\x43SERROR\0VERROR\0C57014\0Mcanceling statement due to user request\0\0\
Z\0\0\0\x05I";

/// When the cancel is made.
#[derive(Clone, Copy, PartialEq, Eq)]
enum Moment {
    /// While the handler makes the query.
    Query,
    /// At a poll of the query.
    Poll,
}

/// A connection that cancels another one's query, by its key.
#[derive(Drop)]
struct Canceler {
    manager: Arc<ConnectionManager>,
    handle: ConnectionHandle,
    key: SecretKey,
    ghost issued: { handle.issuer ≡ arc_value manager },
}

impl Canceler {
    /// Cancels by the pid 7 and the key, and tells whether a connection has them.
    fn is_met<R: Wait>(self, rt: &R) -> bool {
        let Canceler {
            manager,
            mut handle,
            key,
        } = self;
        manager.cancel(rt, &mut handle, 7, &key) == Ok(true)
    }
}

/// What the handler and its queries share: when the cancel is made, who makes it, unless it was made
/// already, and how many queries were made and cancels met.
#[derive(Drop)]
struct Stage<R> {
    rt: R,
    moment: Moment,
    canceler: Cell<Option<Canceler>>,
    queries: Cell<u64>,
    met: Cell<u64>,
}

impl<R: Wait> Stage<R> {
    /// Cancels at the moment, once.
    fn reach(&self, moment: Moment) {
        if moment == self.moment {
            if let Some(canceler) = self.canceler.replace(None) {
                let met = u64::from(canceler.is_met(&self.rt));
                self.met.set(self.met.get().saturating_add(met));
            }
        }
    }

    /// Whether one query was made, and a cancel met it.
    fn is_over(&self) -> bool {
        self.queries.get() == 1 && self.met.get() == 1
    }
}

/// No response.
type Answers = PgList<Response<NoRows, NoRows>>;

/// A query that is canceled at its first poll, if that is the moment.
#[derive(Drop)]
struct HeldQuery<'s, R> {
    stage: &'s Stage<R>,
    query: PolledQuery<Answers>,
}

impl<'s, R: Wait> QueryState for HeldQuery<'s, R> {
    ghost use Rattle.pg_handlers.specs.PolledQueries.{query_told};

    type Out = Result<Answers, PgWireError>;

    ghost told = { λ q. query_told q.query.unready q.query.outcome };

    fn poll(&mut self) -> Result<Turn<Result<Answers, PgWireError>>, AllocError> {
        self.stage.reach(Moment::Poll);
        self.query.poll()
    }
}

/// Each query owes one poll, and is answered nothing.
#[derive(Drop)]
struct Held<'s, R> {
    stage: &'s Stage<R>,
    noop: NoopHandler,
}

impl<'s, R: Wait> SimpleQueryHandler for Held<'s, R> {
    ghost use Rattle.std.specs.Prelude.{Ok, []};

    type Rows = NoRows;

    type CopyRows = NoRows;

    type Query = HeldQuery<'s, R>;

    ghost told = { λ _ client query. record { owes = 1; outcome = Ok [] } };

    fn do_query(
        &self,
        alloc: Global,
        _client: &ClientInfo,
        _query: &str,
    ) -> Result<HeldQuery<'s, R>, AllocError> {
        let stage = self.stage;
        stage.queries.set(stage.queries.get().saturating_add(1));
        stage.reach(Moment::Query);
        let query = PolledQuery::new(1, Ok(PgList::new(alloc)));
        Ok(HeldQuery { stage, query })
    }
}

impl<'s, R: Wait> PgWireServerHandlers for Held<'s, R> {
    ghost use Rattle.std.specs.Prelude.{Ok, []};
    ghost use Rattle.conversation_table.specs.Noop.{noop_extended, noop_copy};

    type Simple = Held<'s, R>;

    type Extended = NoopHandler;

    type Copying = NoopHandler;

    ghost told = { λ _. record {
      extended = noop_extended;
      simple = λ client query. record { owes = 1; outcome = Ok [] };
      copying = noop_copy;
    } };

    fn simple_query_handler(&self) -> &Held<'s, R> {
        self
    }

    fn extended_query_handler(&self) -> &NoopHandler {
        &self.noop
    }

    fn copy_handler(&self) -> &NoopHandler {
        &self.noop
    }
}

/// A client that sends its first piece, and each next one only if the server is ready for a query by
/// then. Else its input ends.
#[derive(Drop)]
struct PatientSource<'f> {
    reads: u64,
    ready: &'f Cell<bool>,
}

/// What it sends at the read of this number.
fn piece(number: u64) -> &'static [u8] {
    match number {
        0 => PIECES[0],
        1 => PIECES[1],
        2 => PIECES[2],
        _ => b"",
    }
}

impl<'f> Source for PatientSource<'f> {
    ghost use Rattle.std.specs.Prelude.{None};

    ghost left = { λ _. None };

    ghost reads = { λ s. s.reads };

    ghost faults = { λ _. 0 };

    fn receive(&mut self, into: &mut [u8]) -> Result<usize, SourceFailed> {
        if self.reads > 0 && !self.ready.get() {
            return Ok(0);
        }
        let piece = piece(self.reads);
        let n = piece.len().min(into.len());
        into[..n].copy_from_slice(&piece[..n]);
        if n > 0 {
            self.reads = self.reads.saturating_add(1);
        }
        Ok(n)
    }
}

/// A sink that notes when the server is ready for a query.
#[derive(Drop)]
struct NotingSink<'f> {
    sink: MemorySink,
    ready: &'f Cell<bool>,
}

impl<'f> Sink for NotingSink<'f> {
    ghost use Rattle.std.specs.Prelude.{Some};

    ghost written = { λ s. Some s.sink.bytes };

    ghost faults = { λ s. s.sink.faults };

    ghost refused = { λ s. s.sink.refused };

    ghost sent = { λ s. s.sink.sent };

    fn send(&mut self, bytes: &[u8]) -> Result<(), SinkError> {
        self.sink.send(bytes)?;
        self.ready.set(self.sink.bytes().ends_with(READY));
        Ok(())
    }
}

/// The connection of pid 8, which cancels.
fn make_canceler<R: Wait>(rt: &R, registry: &mut Registry) -> Option<Canceler>
    ensures manager { registry.new.manager ≡ registry.old.manager }
{
    let handle = registry.register(rt, 8)?;
    let key = registry.key()?;
    let manager = Arc::try_clone(&registry.manager).ok()?;
    Some(Canceler {
        manager,
        handle,
        key,
    })
}

/// Serves a client through its connection, by any handlers.
fn serve<R: Wait, H: PgWireServerHandlers, S: Source, K: Sink>(
    rt: &R,
    alloc: Global,
    manager: &ConnectionManager,
    handle: &mut ConnectionHandle,
    handlers: Arc<H>,
    source: &mut S,
    sink: &mut K,
) -> Result<EndKind, ServeError>
    requires issued { handle.old.issuer ≡ manager.now }
{
    let mut desk = HandleDesk {
        runtime: rt,
        manager,
        handle,
    };
    let store = MemPortalStore::new(alloc);
    let answer = serve_connection(alloc, handlers, store, &mut desk, source, sink, 9);
    let HandleDesk {
        runtime: _,
        manager: _,
        handle: _handle,
    } = desk;
    answer
}

/// Whether a client of these handlers is told that its query was canceled. It asks only once the
/// server was ready.
fn is_told<R: Wait>(
    rt: &R,
    alloc: Global,
    manager: &ConnectionManager,
    handle: &mut ConnectionHandle,
    handlers: Arc<Held<'_, R>>,
) -> bool
    requires issued { handle.old.issuer ≡ manager.now }
{
    let ready = &Cell::new(false);
    let mut source = PatientSource { reads: 0, ready };
    let sink = MemorySink::new(alloc, PgList::new(alloc));
    let mut sink = NotingSink { sink, ready };
    let answer = serve(rt, alloc, manager, handle, handlers, &mut source, &mut sink);
    answer == Ok(EndKind::Terminate) && sink.sink.bytes().ends_with(CANCELED)
}

/// The same for a client on this stage.
fn is_told_on<R: Wait>(
    rt: &R,
    alloc: Global,
    manager: &ConnectionManager,
    handle: &mut ConnectionHandle,
    stage: &Stage<R>,
) -> bool
    requires issued { handle.old.issuer ≡ manager.now }
{
    let noop = NoopHandler;
    match Arc::new(alloc, Held { stage, noop }) {
        Ok(handlers) => is_told(rt, alloc, manager, handle, handlers),
        Err(_) => false,
    }
}

/// Whether a cancel is made at the moment, and heard by the query of the client of pid 7, whose
/// handler was asked once.
fn is_heard<R: Wait + Copy>(
    rt: R,
    alloc: Global,
    registry: &mut Registry,
    moment: Moment,
) -> Option<bool> {
    let mut handle = registry.register(&rt, 7)?;
    let canceler = make_canceler(&rt, registry)?;
    let stage = Stage {
        rt,
        moment,
        canceler: Cell::new(Some(canceler)),
        queries: Cell::new(0),
        met: Cell::new(0),
    };
    Some(is_told_on(&rt, alloc, &registry.manager, &mut handle, &stage) && stage.is_over())
}

/// The same at a new registry.
fn is_canceled<R: Wait + Copy>(rt: R, alloc: Global, moment: Moment) -> bool {
    match Registry::new(alloc) {
        Some(mut registry) => is_heard(rt, alloc, &mut registry, moment) == Some(true),
        None => false,
    }
}

/// A cancel is made and heard while the query is being polled: no lock is held meanwhile.
#[test]
fn a_query_is_canceled_while_it_is_polled(rt: HostRuntime) {
    assert!(rt; is_canceled(rt, rt.alloc(), Moment::Poll));
}

/// A cancel is made while the handler makes the query, and heard at its first poll: the query had
/// been started before. The handler was asked once.
#[test]
fn a_query_is_canceled_while_it_is_made(rt: HostRuntime) {
    assert!(rt; is_canceled(rt, rt.alloc(), Moment::Query));
}
