//! A client is served through its connection to the shared registry.

ghost use Rattle.std.specs.Prelude.{◌≡◌, []};
ghost use mathlib.Core.List.{IsPrefix};
ghost use Rattle.client_services.specs.Served.{IsServedBy};
ghost use Rattle.conversation_table.specs.Questions.{questions_since};
ghost use Rattle.pg_serve.specs.Desk.{StaysUsable, desk_calls, desk_of};
ghost use Rattle.pg_engine.specs.Around.{around};
ghost use Rattle.pg_engine.specs.Serving.{HasCause, counts_of};
ghost use Rattle.many_clients.specs.Registrations.{IsLeftBehind};

use client_services::Service;
use conversation_runs::{ServeError, Sink, Source};
use pg_cancel::{ConnectionHandle, ConnectionManager, Note};
use pg_client::EndKind;
use pg_serve::HandleDesk;
use std::alloc::Global;
use std::sync::Wait;

/// Serves a client by a service, as [`Service::serve`] does, through its connection to the shared
/// registry, so that the clients of other threads may cancel its queries. It waits for the source,
/// for the sink, and for the registry's turn, once for each call of the registry.
///
/// The connection stays usable, whatever is answered.
pub fn serve_registered<R: Wait, V: Service, S: Source, K: Sink>(
    rt: &R,
    alloc: Global,
    manager: &ConnectionManager,
    handle: &mut ConnectionHandle,
    service: &V,
    source: &mut S,
    sink: &mut K,
    turn_limit: u64,
) -> Result<EndKind, ServeError>
    requires issued { handle.old.issuer ≡ manager.now }

    // The client was served by the service: the bytes written and the connection's new calls are the
    // answer of its rules to the client's bytes, however cut; nothing behind the end was read, each
    // read that was counted gave a byte, no count of faults fell, none rose at Ok; the source and the
    // sink are the same. And what the service promises beside holds.
    ensures served { let round = around S.left S.reads S.faults S.origin K.written K.faults K.origin desk_of in
        IsServedBy (V.rules service.now) (V.begins service.now handle.old.pid handle.old.key)
        (V.also service.now) turn_limit result
        (round source.old sink.old handle.old) (round source.new sink.new handle.new) }
    ensures cause { HasCause result turn_limit
        (questions_since (desk_calls handle.old.mine) (desk_calls handle.new.mine))
        (counts_of S.reads S.faults K.faults source.old sink.old)
        (counts_of S.reads S.faults K.faults source.new sink.new) }

    // The connection's own calls have only grown.
    ensures grown { IsPrefix handle.old.mine handle.new.mine }

    // What the connection has seen of the one history goes on, and is legal, and has just its own
    // calls under its number.
    ensures usable { StaysUsable handle.old handle.new }
{
    let before = manager.note(handle);
    let answer = serve_at_desk(
        rt, alloc, manager, handle, service, source, sink, turn_limit,
    );
    manager.take_in(handle, before);
    answer
}

/// Serves a client with the connection's handle as the desk.
fn serve_at_desk<R: Wait, V: Service, S: Source, K: Sink>(
    rt: &R,
    alloc: Global,
    manager: &ConnectionManager,
    handle: &mut ConnectionHandle,
    service: &V,
    source: &mut S,
    sink: &mut K,
    turn_limit: u64,
) -> Result<EndKind, ServeError>
    requires issued { handle.old.issuer ≡ manager.now }
    ensures { let round = around S.left S.reads S.faults S.origin K.written K.faults K.origin desk_of in
        IsServedBy (V.rules service.now) (V.begins service.now handle.old.pid handle.old.key)
        (V.also service.now) turn_limit result
        (round source.old sink.old handle.old) (round source.new sink.new handle.new) }
{
    let mut desk = HandleDesk {
        runtime: rt,
        manager,
        handle,
    };
    let answer = service.serve(alloc, &mut desk, source, sink, turn_limit);
    let HandleDesk {
        runtime: _,
        manager: _,
        handle: _handle,
    } = desk;
    answer
}

/// Ends a registration, and answers what its connection had seen of the registry's history. It waits
/// for the registry's turn. Where memory ran out, the registration stays.
pub fn leave<R: Wait>(rt: &R, manager: &ConnectionManager, handle: ConnectionHandle) -> Note
    requires issued { handle.issuer ≡ manager.now }
    ensures { IsLeftBehind handle [] result }
{
    match manager.unregister(rt, handle) {
        Ok(note) => note,
        Err((mut handle, _no_memory)) => manager.note(&mut handle),
    }
}
