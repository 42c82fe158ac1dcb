//! Serves a client of relations.

ghost use Rattle.std.specs.Prelude.{◌≡◌, ◌++◌, List};
ghost use Rattle.std.specs.Arc.{arc_value};
ghost use Rattle.conversation_table.specs.Questions.{questions_since};
ghost use Rattle.pg_client.specs.declared.desk.DeskCall.{DeskCall};
ghost use Rattle.pg_engine.specs.Around.{ServesSession, around};
ghost use Rattle.pg_engine.specs.Serving.{HasCause, counts_of};
ghost use Rattle.relation_serving.specs.Completeness.{IsComplete};
ghost use Rattle.relation_tables.specs.RelationHandler.{relation_handlers};
ghost use Rattle.relation_serving.specs.Serving.{WentByTables};

use pg_engine::serve_connection;
use pg_handlers::NoopHandler;
use pg_portal::MemPortalStore;
use pg_session::{CancelDesk, EndKind, PgWireServerHandlers, ServeError, Sink, Source};
use relation_handlers::{RelationHandler, RelationTable};
use std::alloc::Global;
use std::sync::Arc;

/// Serves a client over relations: takes its bytes from the source, and writes the answer to the
/// sink, until the conversation ends. Simple and extended queries are answered, `COPY name TO
/// STDOUT` too; COPY from the client is refused. A read that gives at least one byte or the end
/// costs one turn, and so does each poll that finds a query unready.
///
/// Ok says how the conversation ended, and all of its replies are written then. ReadFault comes
/// where a read failed, and the whole answer to the frames taken before is written then. WriteFault
/// comes where a write failed, TurnLimit where all turns were spent and one more was needed,
/// NoMemory where memory ran out. After these three a front of the answer is written.
pub fn serve_relations_on<D: CancelDesk, S: Source, K: Sink>(
    alloc: Global,
    desk: &mut D,
    relations: &RelationTable,
    source: &mut S,
    sink: &mut K,
    turn_limit: u64,
) -> Result<EndKind, ServeError>

    // The bytes written and the new calls are the conversation tables' answer to the client's
    // bytes, however cut. Each cell that was written stands for a stored interval.
    ensures went { (calls : List DeskCall)
        × ((D.told desk.new).calls ≡ (D.told desk.old).calls ++ calls)
        × WentByTables relations.now (D.told desk.old).registration result (S.left source.old)
        (S.left source.new)
        (K.written sink.old) (K.written sink.new) calls }
    ensures cause { HasCause result turn_limit
        (questions_since (D.told desk.old).calls (D.told desk.new).calls)
        (counts_of S.reads S.faults K.faults source.old sink.old)
        (counts_of S.reads S.faults K.faults source.new sink.new) }

    // With turns enough, and where no read and no write fails, any bytes are served to their end.
    ensures complete { IsComplete relations.now turn_limit result (S.left source.old)
        (counts_of S.reads S.faults K.faults source.old sink.old)
        (counts_of S.reads S.faults K.faults source.new sink.new) }

    // Nothing after the end was read, each read that was counted gave a byte, and the source, the
    // sink and the desk are the same ones.
    ensures serves { let round = around S.left S.reads S.faults S.origin K.written K.faults K.origin D.told in
        ServesSession (relation_handlers relations.now) turn_limit result
        (round source.old sink.old desk.old) (round source.new sink.new desk.new) }
{
    let _valid = relations.relations();
    let copying = NoopHandler;
    let Ok(handlers) = Arc::new(alloc, RelationHandler { relations, copying }) else {
        return Err(ServeError::NoMemory);
    };
    serve_by(alloc, handlers, desk, source, sink, turn_limit)
}

/// Serves a client by these handlers, with a store in memory, as `serve_connection` does. It is
/// generic in the handlers, so that no check has to compare what their types are made of.
fn serve_by<H: PgWireServerHandlers, D: CancelDesk, S: Source, K: Sink>(
    alloc: Global,
    handlers: Arc<H>,
    desk: &mut D,
    source: &mut S,
    sink: &mut K,
    turn_limit: u64,
) -> Result<EndKind, ServeError>
    ensures { let round = around S.left S.reads S.faults S.origin K.written K.faults K.origin D.told in
        ServesSession (H.told (arc_value handlers)) turn_limit result
        (round source.old sink.old desk.old) (round source.new sink.new desk.new) }
{
    let store = MemPortalStore::new(alloc);
    serve_connection(alloc, handlers, store, desk, source, sink, turn_limit)
}
