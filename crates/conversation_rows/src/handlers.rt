//! A client is served by the handlers that a row names.

use crate::relations::table_of;
use crate::serving::{Ending, Place};
use pg_handlers::NoopHandler;
use pg_portal::MemPortalStore;
use pg_serve::serve_connection;
use pg_session::PgWireServerHandlers;
use relation_serving::serve_relations_on;
use row_files::{Fault, told};
use sample_handlers::{SampleCopying, SampleHandlers};
use std::alloc::Global;
use std::sync::Arc;

/// Serves a client over the relations that the lines tell, or by the handlers that they name.
pub fn serve_told<'t>(
    alloc: Global,
    lines: &[&'t str],
    place: &mut Place,
    turns: u64,
) -> Result<Ending, Fault<'t>> {
    match told(lines, "handlers") {
        None => serve_relations(alloc, lines, place, turns),
        Some("noop") => serve_noop(alloc, place, turns),
        Some("sample") => serve_sample(alloc, SampleCopying::Taken, place, turns),
        Some("refused_copy") => serve_sample(alloc, SampleCopying::Noop, place, turns),
        Some(other) => Err(Fault::Line(other)),
    }
}

/// Serves a client over the relations that the lines tell.
fn serve_relations<'t>(
    alloc: Global,
    lines: &[&'t str],
    place: &mut Place,
    turns: u64,
) -> Result<Ending, Fault<'t>> {
    let table = table_of(alloc, lines)?;
    Ok(serve_relations_on(
        alloc,
        &mut place.desk,
        &table,
        &mut place.source,
        &mut place.sink,
        turns,
    ))
}

// Serves a client by these handlers. It is written out for each kind of them: a function that is
// generic over handlers costs more to prove than all of its uses.
macro_rules! serve_by {
    ($alloc:expr, $handlers:expr, $place:expr, $turns:expr) => {{
        let handlers = Arc::new($alloc, $handlers)?;
        let store = MemPortalStore::new($alloc);
        Ok(serve_connection(
            $alloc,
            handlers,
            store,
            &mut $place.desk,
            &mut $place.source,
            &mut $place.sink,
            $turns,
        ))
    }};
}

/// Serves a client by the handlers of sample queries, which do this with a COPY from the client.
fn serve_sample<'t>(
    alloc: Global,
    copying: SampleCopying,
    place: &mut Place,
    turns: u64,
) -> Result<Ending, Fault<'t>> {
    serve_by!(alloc, SampleHandlers::new(copying), place, turns)
}

/// Serves a client by the handler that implements nothing.
fn serve_noop<'t>(alloc: Global, place: &mut Place, turns: u64) -> Result<Ending, Fault<'t>> {
    let handlers = NoopHandlers {
        handler: NoopHandler,
    };
    serve_by!(alloc, handlers, place, turns)
}

/// The handler that implements nothing, of every kind.
#[derive(Drop)]
struct NoopHandlers {
    handler: NoopHandler,
}

impl PgWireServerHandlers for NoopHandlers {
    ghost use Rattle.conversation_table.specs.Noop.{noop_extended, noop_simple, noop_copy};

    type Simple = NoopHandler;

    type Extended = NoopHandler;

    type Copying = NoopHandler;

    ghost told = { λ _. record {
      extended = noop_extended;
      simple = noop_simple;
      copying = noop_copy;
    } };

    fn simple_query_handler(&self) -> &NoopHandler {
        &self.handler
    }

    fn extended_query_handler(&self) -> &NoopHandler {
        &self.handler
    }

    fn copy_handler(&self) -> &NoopHandler {
        &self.handler
    }
}
