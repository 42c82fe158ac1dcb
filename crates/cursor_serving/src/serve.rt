//! A client of relations is served, with cursors in simple queries.

ghost use Rattle.std.specs.Prelude.{◌≡◌, ◌++◌, [], true, List, IfOk};
ghost use Rattle.std.specs.Arc.{arc_value};
ghost use Rattle.pg_portal.specs.Maps.{no_maps};
ghost use Rattle.conversation_table.specs.Questions.{questions_since};
ghost use Rattle.pg_client.specs.State.{first_state};
ghost use Rattle.pg_client.specs.declared.desk.DeskCall.{DeskCall};
ghost use Rattle.pg_engine.specs.Around.{around};
ghost use Rattle.pg_engine.specs.Serving.{HasCause, counts_of};
ghost use Rattle.relation_serving.specs.Completeness.{IsComplete};
ghost use Rattle.relation_tables.specs.RelationHandler.{relation_handlers};
ghost use Rattle.cursor_serving.specs.Serving.{ServesCursors, WentByCursors};

use cursor_session::CursorSession;
use pg_engine::serve_whole;
use pg_handlers::NoopHandler;
use pg_portal::{MemPortalStore, PortalStore};
use pg_session::{
    CancelDesk, EndKind, ExtendedQueryHandler, PgWireServerHandlers, ServeError, Sink, Source,
};
use relation_handlers::{RelationHandler, RelationTable};
use std::alloc::{AllocError, Global};
use std::sync::Arc;

/// Serves a client over relations, as `serve_relations_on` of relation_serving does, with cursors.
/// A simple query that is `DECLARE c CURSOR FOR r`, `FETCH n FROM c`, `FETCH ALL FROM c` or `CLOSE
/// c`, taken while the server is ready for a query, is answered like the extended messages that it
/// stands for, with their replies changed. A portal that DECLARE or Bind made is fetched from by
/// FETCH and Execute in any mix. A read that gives at least one byte or the end costs one turn, and
/// so does each poll that finds a query unready.
///
/// Ok tells how the conversation ended, with all of its replies written. ReadFault comes where a
/// read failed, and the whole answer to the frames taken before is written; WriteFault where a
/// write failed, TurnLimit where all turns were spent and one more was needed, NoMemory where
/// memory ran out: then a front of the answer is written.
pub fn serve_cursors_on<D: CancelDesk, S: Source, K: Sink>(
    alloc: Global,
    desk: &mut D,
    relations: &RelationTable,
    source: &mut S,
    sink: &mut K,
    turn_limit: u64,
) -> Result<EndKind, ServeError>

    // The bytes written and the new calls are the cursor table's answer to the client's bytes,
    // whatever reads these come in.
    ensures went { (calls : List DeskCall)
        × ((D.told desk.new).calls ≡ (D.told desk.old).calls ++ calls)
        × WentByCursors relations.now (D.told desk.old).registration result (S.left source.old)
        (S.left source.new)
        (K.written sink.old) (K.written sink.new) calls }
    ensures cause { HasCause result turn_limit
        (questions_since (D.told desk.old).calls (D.told desk.new).calls)
        (counts_of S.reads S.faults K.faults source.old sink.old)
        (counts_of S.reads S.faults K.faults source.new sink.new) }

    // With enough turns, and where no read and no write fails, any bytes are served to their end: a
    // Query costs turns as an Execute does.
    ensures complete { IsComplete relations.now turn_limit result (S.left source.old)
        (counts_of S.reads S.faults K.faults source.old sink.old)
        (counts_of S.reads S.faults K.faults source.new sink.new) }

    // Nothing behind the end was read, each read that was counted gave a byte, and the source, the
    // sink and the desk are the ones that were lent.
    ensures serves { let round = around S.left S.reads S.faults S.origin K.written K.faults K.origin D.told in
        ServesCursors (relation_handlers relations.now) turn_limit result
        (round source.old sink.old desk.old) (round source.new sink.new desk.new) }
{
    let copying = NoopHandler;
    let Ok(handlers) = Arc::new(alloc, RelationHandler { relations, copying }) else {
        return Err(ServeError::NoMemory);
    };
    serve_by(alloc, handlers, desk, source, sink, turn_limit)
}

/// Serves a client by these handlers with cursors, and with a store in memory. It is generic in the
/// handlers, so that no check has to compare what their types are made of.
fn serve_by<H: PgWireServerHandlers, D: CancelDesk, S: Source, K: Sink>(
    alloc: Global,
    handlers: Arc<H>,
    desk: &mut D,
    source: &mut S,
    sink: &mut K,
    turn_limit: u64,
) -> Result<EndKind, ServeError>
    ensures { let round = around S.left S.reads S.faults S.origin K.written K.faults K.origin D.told in
        ServesCursors (H.told (arc_value handlers)) turn_limit result
        (round source.old sink.old desk.old) (round source.new sink.new desk.new) }
{
    let store = MemPortalStore::new(alloc);
    let Ok(front) = front_at(alloc, handlers, store, desk) else {
        return Err(ServeError::NoMemory);
    };
    serve_whole(alloc, front, desk, source, sink, turn_limit)
}

/// A front of a session that awaits the startup packet of the client whom this desk knows. The only
/// error is want of memory.
fn front_at<
    H: PgWireServerHandlers,
    St: PortalStore<
        Statement = <H::Extended as ExtendedQueryHandler>::Statement,
        Rows = <H::Extended as ExtendedQueryHandler>::Rows,
    >,
    D: CancelDesk,
>(alloc: Global, handlers: Arc<H>, store: St, desk: &D) -> Result<CursorSession<H, St>, AllocError>
    requires empty { St.maps store ≡ no_maps }
    ensures { IfOk result (λ session. session ≡ record {
      front = record {
        inner = record {
          handlers = arc_value handlers;
          state = first_state (D.told desk.now).registration.0 (D.told desk.now).registration.1;
          rest = [];
          unsent = [];
          is_open = true;
        };
        held = [];
        owed = 0;
      };
      is_open = true;
    }) }
{
    let (pid, key) = desk.identity();
    let key = key.copy_of()?;
    CursorSession::new(alloc, handlers, store, pid, key)
}
