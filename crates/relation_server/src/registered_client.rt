//! A client of relations is served through its connection to the shared registry.

ghost use Rattle.std.specs.Prelude.{List, ◌≡◌, ◌++◌};
ghost use Rattle.pg_cancel.specs.declared.entries.Entry.{Entry};
ghost use Rattle.conversation_table.specs.Questions.{questions_since};
ghost use Rattle.pg_serve.specs.Desk.{StaysUsable, desk_calls, desk_of};
ghost use Rattle.pg_engine.specs.Around.{ServesSession, around};
ghost use Rattle.pg_engine.specs.Serving.{HasCause, counts_of};
ghost use Rattle.relation_tables.specs.RelationHandler.{relation_handlers};
ghost use Rattle.relation_serving.specs.Completeness.{IsComplete};
ghost use Rattle.relation_serving.specs.Serving.{WentByTables};

use conversation_runs::{ServeError, Sink, Source};
use many_clients::serve_registered;
use pg_cancel::{ConnectionHandle, ConnectionManager};
use pg_client::EndKind;
use relation_handlers::RelationTable;
use relation_services::LentRelations;
use std::alloc::Global;
use std::sync::Wait;

/// Serves a client over relations, as `serve_relations_on` does, through its connection to the
/// shared registry, so that the clients of other threads may cancel its queries. It waits for others
/// only at the registry, for its turn, once for each call.
///
/// The connection stays usable, whatever is answered.
pub fn serve_relations<R: Wait, S: Source, K: Sink>(
    rt: &R,
    alloc: Global,
    manager: &ConnectionManager,
    handle: &mut ConnectionHandle,
    relations: &RelationTable,
    source: &mut S,
    sink: &mut K,
    turn_limit: u64,
) -> Result<EndKind, ServeError>
    requires issued { handle.old.issuer ≡ manager.now }

    // The bytes written and the connection's new calls are the conversation tables' answer to the
    // client's bytes, whatever reads these come in. Each cell that was written stands for a stored
    // interval.
    ensures went { (made : List Entry) × (handle.new.mine ≡ handle.old.mine ++ made)
        × WentByTables relations.now (handle.old.pid, handle.old.key) result (S.left source.old) (S.left source.new)
        (K.written sink.old) (K.written sink.new) (desk_calls made) }
    ensures cause { HasCause result turn_limit
        (questions_since (desk_calls handle.old.mine) (desk_calls handle.new.mine))
        (counts_of S.reads S.faults K.faults source.old sink.old)
        (counts_of S.reads S.faults K.faults source.new sink.new) }

    // With enough turns, and where no read and no write fails, any bytes are served to their end.
    ensures complete { IsComplete relations.now turn_limit result (S.left source.old)
        (counts_of S.reads S.faults K.faults source.old sink.old)
        (counts_of S.reads S.faults K.faults source.new sink.new) }

    // Nothing behind the end was read, and each read that was counted gave a byte.
    ensures serves { let round = around S.left S.reads S.faults S.origin K.written K.faults K.origin desk_of in
        ServesSession (relation_handlers relations.now) turn_limit result
        (round source.old sink.old handle.old) (round source.new sink.new handle.new) }

    // What the connection has seen of the registry's history grows and is legal, and what stands
    // there under the connection's number is just its own calls.
    ensures usable { StaysUsable handle.old handle.new }
{
    let _valid = relations.relations();
    let service = LentRelations { relations };
    serve_registered(
        rt, alloc, manager, handle, &service, source, sink, turn_limit,
    )
}
