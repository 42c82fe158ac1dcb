//! Serves a client at a socket.

ghost use Rattle.std.specs.Prelude.{◌≡◌, None};
ghost use Rattle.std.specs.Arc.{arc_value};
ghost use Rattle.pg_portal.specs.Maps.{no_maps};
ghost use Rattle.conversation_table.specs.Questions.{questions_since};
ghost use Rattle.pg_client.specs.State.{first_state};
ghost use Rattle.conversation_runs.specs.Session.{whole_rules};
ghost use Rattle.pg_serve.specs.Desk.{StaysUsable, WentByCalls, around_socket, desk_calls, desk_of};
ghost use Rattle.pg_engine.specs.Around.{ServesSession, around};
ghost use Rattle.pg_engine.specs.Serving.{HasCause, counts_of};
ghost use Rattle.pg_streams.specs.Sockets.{reads_of, faults_of};

use crate::desk::HandleDesk;
use pg_cancel::{ConnectionHandle, ConnectionManager};
use pg_engine::serve_connection;
use pg_portal::PortalStore;
use pg_session::{EndKind, ExtendedQueryHandler, PgWireServerHandlers, ServeError, Sink, Source};
use pg_streams::MaybeTls;
use std::alloc::Global;
use std::sync::{Arc, Wait};

/// Serves a client over TCP by [`serve_connection`], through its connection to the shared registry:
/// reads from one handle of its stream and writes to the other. It waits for the client and for the
/// registry's turn.
pub fn process_socket<
    R: Wait,
    H: PgWireServerHandlers,
    St: PortalStore<
        Statement = <H::Extended as ExtendedQueryHandler>::Statement,
        Rows = <H::Extended as ExtendedQueryHandler>::Rows,
    >,
>(
    rt: &R,
    alloc: Global,
    reader: &mut MaybeTls,
    writer: &mut MaybeTls,
    handlers: Arc<H>,
    store: St,
    manager: &ConnectionManager,
    handle: &mut ConnectionHandle,
    turn_limit: u64,
) -> Result<EndKind, ServeError>
    requires empty { St.maps store ≡ no_maps }
    requires issued { handle.old.issuer ≡ manager.now }
    // The bytes of a socket aren't known. The end and the calls are those of some run.
    ensures went { WentByCalls (whole_rules (H.told (arc_value handlers)))
        (first_state handle.old.pid handle.old.key)
        handle.old.mine handle.new.mine result None None None None }
    ensures cause { HasCause result turn_limit
        (questions_since (desk_calls handle.old.mine) (desk_calls handle.new.mine))
        (counts_of reads_of faults_of faults_of reader.old writer.old)
        (counts_of reads_of faults_of faults_of reader.new writer.new) }
    ensures serves { ServesSession (H.told (arc_value handlers)) turn_limit result
        (around_socket reader.old writer.old handle.old)
        (around_socket reader.new writer.new handle.new) }
    ensures usable { StaysUsable handle.old handle.new }
{
    serve_handle(
        rt, alloc, reader, writer, handlers, store, manager, handle, turn_limit,
    )
}

/// Serves a client over a Unix socket, as [`process_socket`] does over TCP.
pub fn process_socket_unix<
    R: Wait,
    H: PgWireServerHandlers,
    St: PortalStore<
        Statement = <H::Extended as ExtendedQueryHandler>::Statement,
        Rows = <H::Extended as ExtendedQueryHandler>::Rows,
    >,
>(
    rt: &R,
    alloc: Global,
    reader: &mut MaybeTls,
    writer: &mut MaybeTls,
    handlers: Arc<H>,
    store: St,
    manager: &ConnectionManager,
    handle: &mut ConnectionHandle,
    turn_limit: u64,
) -> Result<EndKind, ServeError>
    requires empty { St.maps store ≡ no_maps }
    requires issued { handle.old.issuer ≡ manager.now }
    // The bytes of a socket aren't known. The end and the calls are those of some run.
    ensures went { WentByCalls (whole_rules (H.told (arc_value handlers)))
        (first_state handle.old.pid handle.old.key)
        handle.old.mine handle.new.mine result None None None None }
    ensures cause { HasCause result turn_limit
        (questions_since (desk_calls handle.old.mine) (desk_calls handle.new.mine))
        (counts_of reads_of faults_of faults_of reader.old writer.old)
        (counts_of reads_of faults_of faults_of reader.new writer.new) }
    ensures serves { ServesSession (H.told (arc_value handlers)) turn_limit result
        (around_socket reader.old writer.old handle.old)
        (around_socket reader.new writer.new handle.new) }
    ensures usable { StaysUsable handle.old handle.new }
{
    serve_handle(
        rt, alloc, reader, writer, handlers, store, manager, handle, turn_limit,
    )
}

/// Serves a client through its connection to the registry. What the connection had seen stays the
/// beginning of what it has seen.
fn serve_handle<
    R: Wait,
    H: PgWireServerHandlers,
    St: PortalStore<
        Statement = <H::Extended as ExtendedQueryHandler>::Statement,
        Rows = <H::Extended as ExtendedQueryHandler>::Rows,
    >,
    S: Source,
    K: Sink,
>(
    rt: &R,
    alloc: Global,
    source: &mut S,
    sink: &mut K,
    handlers: Arc<H>,
    store: St,
    manager: &ConnectionManager,
    handle: &mut ConnectionHandle,
    turn_limit: u64,
) -> Result<EndKind, ServeError>
    requires empty { St.maps store ≡ no_maps }
    requires issued { handle.old.issuer ≡ manager.now }
    ensures went { WentByCalls (whole_rules (H.told (arc_value handlers)))
        (first_state handle.old.pid handle.old.key) handle.old.mine handle.new.mine result
        (S.left source.old) (S.left source.new) (K.written sink.old) (K.written sink.new) }
    ensures serves { let round = around S.left S.reads S.faults S.origin K.written K.faults K.origin desk_of in
        ServesSession (H.told (arc_value handlers)) turn_limit result
        (round source.old sink.old handle.old) (round source.new sink.new handle.new) }
    ensures usable { StaysUsable handle.old handle.new }
{
    let before = manager.note(handle);
    let answer = serve_at_desk(
        rt, alloc, source, sink, handlers, store, manager, handle, turn_limit,
    );
    manager.take_in(handle, before);
    answer
}

/// Serves a client with the connection's handle as the desk.
fn serve_at_desk<
    R: Wait,
    H: PgWireServerHandlers,
    St: PortalStore<
        Statement = <H::Extended as ExtendedQueryHandler>::Statement,
        Rows = <H::Extended as ExtendedQueryHandler>::Rows,
    >,
    S: Source,
    K: Sink,
>(
    rt: &R,
    alloc: Global,
    source: &mut S,
    sink: &mut K,
    handlers: Arc<H>,
    store: St,
    manager: &ConnectionManager,
    handle: &mut ConnectionHandle,
    turn_limit: u64,
) -> Result<EndKind, ServeError>
    requires empty { St.maps store ≡ no_maps }
    requires issued { handle.old.issuer ≡ manager.now }
    ensures { let round = around S.left S.reads S.faults S.origin K.written K.faults K.origin desk_of in
        ServesSession (H.told (arc_value handlers)) turn_limit result
        (round source.old sink.old handle.old) (round source.new sink.new handle.new) }
{
    let mut desk = HandleDesk {
        runtime: rt,
        manager,
        handle,
    };
    let answer = serve_connection(alloc, handlers, store, &mut desk, source, sink, turn_limit);
    let HandleDesk {
        runtime: _,
        manager: _,
        handle: _handle,
    } = desk;
    answer
}
