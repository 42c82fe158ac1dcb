//! Clients that are served, and the calls that come of their messages.

use crate::answers::NotedAnswers;
use crate::calls::Calls;
use crate::desk::NotedDesk;
use pg_engine::serve_connection;
use pg_handlers::{EndKind, ScriptDesk};
use pg_messages::{PgBytes, PgList, SecretKey};
use pg_portal::MemPortalStore;
use pg_streams::{MemorySink, MemorySource};
use row_files::Fault;
use row_handlers::RowHandlers;
use std::alloc::{AllocError, Global};
use std::sync::Arc;

/// The key of each client.
const KEY: [u8; 4] = [1, 2, 3, 4];

/// How many turns each client has.
const TURNS: u64 = 100;

/// The names of the calls that come of a client's messages. A client that doesn't end by Terminate
/// is told as `no end`.
pub fn calls_of<'t>(alloc: Global, client: Vec<u8>) -> Result<String, Fault<'t>> {
    let calls = &Calls::new(alloc);
    let desk = NotedDesk {
        desk: ScriptDesk::new(alloc, 7, key(alloc)?, PgList::new(alloc)),
        calls,
    };
    Ok(served(alloc, client, desk, calls)?)
}

/// The key.
fn key(alloc: Global) -> Result<SecretKey, AllocError> {
    SecretKey::try_new(alloc, &KEY).map_err(|_| AllocError)
}

/// Serves the client, and answers the names of the calls.
fn served(
    alloc: Global,
    client: Vec<u8>,
    desk: NotedDesk<'_>,
    calls: &Calls,
) -> Result<String, AllocError> {
    if is_ended(alloc, client, desk, calls)? {
        return Ok(calls.taken());
    }
    String::from_str(alloc, "no end")
}

/// Serves the client, and tells whether it ended by Terminate.
fn is_ended(
    alloc: Global,
    client: Vec<u8>,
    mut desk: NotedDesk<'_>,
    calls: &Calls,
) -> Result<bool, AllocError> {
    let handlers = RowHandlers::new(alloc, NotedAnswers { calls })?;
    let handlers = Arc::new(alloc, handlers)?;
    let none = PgList::new(alloc);
    let mut source = MemorySource::new(PgBytes::from_vec(client), PgList::new(alloc), none);
    let mut sink = MemorySink::new(alloc, PgList::new(alloc));
    let store = MemPortalStore::new(alloc);
    let answer = serve_connection(
        alloc,
        handlers,
        store,
        &mut desk,
        &mut source,
        &mut sink,
        TURNS,
    );
    Ok(answer == Ok(EndKind::Terminate))
}
