//! The service of a connection as a value, over memory.

use crate::clients::{FIRST_PATH, FIRST_REPLIES, shared_over};
use pg_messages::{PgBytes, PgList};
use pg_serve::{MemorySink, MemorySource};
use pg_session::EndKind;
use relation_server::{ConnectionJob, built_in_table};
use sample_registry::Registry;
use std::alloc::Global;
use std::sync::Wait;

/// A job over memory.
type MemoryJob = ConnectionJob<MemorySource, MemorySink>;

/// A client of the first path.
fn client(alloc: Global) -> Option<MemorySource> {
    let bytes = PgBytes::copy_of(alloc, FIRST_PATH).ok()?;
    let (pieces, fails) = (PgList::new(alloc), PgList::new(alloc));
    Some(MemorySource::new(bytes, pieces, fails))
}

/// The job of that client over the sample relations, under the pid 7, with 100 turns.
fn first_path<R: Wait>(rt: &R, registry: &mut Registry) -> Option<MemoryJob> {
    let source = client(registry.alloc)?;
    let handle = registry.register(rt, 7)?;
    let table = built_in_table(registry.alloc).ok()?;
    let (manager, relations) = shared_over(registry, table)?;
    Some(ConnectionJob {
        manager,
        relations,
        handle,
        source,
        sink: MemorySink::new(registry.alloc, PgList::new(registry.alloc)),
        turn_limit: 100,
    })
}

/// Whether the job ends at Terminate, with all replies of the first path.
fn is_served<R: Wait>(rt: &R, registry: &mut Registry) -> Option<bool> {
    let mut job = first_path(rt, registry)?;
    let answer = job.serve(rt, registry.alloc);
    Some(answer == Ok(EndKind::Terminate) && job.sink.bytes() == FIRST_REPLIES)
}

#[test]
fn a_job_is_served(rt: HostRuntime) {
    let told = match Registry::new(rt.alloc()) {
        Some(mut registry) => is_served(&rt, &mut registry),
        None => None,
    };
    assert!(rt; told == Some(true));
}
