//! Two clients on threads of their own ask a counter that they share for the next number, again and
//! again. All numbers are told once.

ghost use Rattle.std.specs.Prelude.{◌≡◌};
ghost use Rattle.std.specs.Thread.{IsSync};

use crate::numbers::{are_all, do_rise, no_numbers, put_numbers};
use moving_serving::serve_moving;
use pg_handlers::ScriptDesk;
use pg_messages::{PgBytes, PgList, SecretKey};
use pg_portal::MemPortalStore;
use pg_streams::{MemorySink, MemorySource};
use shared_counter::SharedCounter;
use shared_history::{Naming, Opened};
use shared_worlds::{Course, SharedHandlers};
use std::alloc::{AllocError, Global};
use std::marker::Brand;
use std::sync::Wait;
use std::test::*;
use std::thread::{Threads, join};

/// A startup packet of version 3.0 with `user` `demo`.
const STARTUP: &[u8] = b"\0\0\0\x13\0\x03\0\0user\0demo\0\0";

/// The simple query NEXT.
const NEXT: &[u8] = b"Q\0\0\0\x09NEXT\0";

/// Terminate.
const TERMINATE: &[u8] = b"X\0\0\0\x04";

/// How often each client asks.
const TIMES: u64 = 200;

/// What a client sends.
fn asked(alloc: Global) -> Result<Vec<u8>, AllocError> {
    let mut bytes = Vec::new(alloc);
    bytes.extend_from_slice(STARTUP)?;
    for _ in 0..TIMES {
        bytes.extend_from_slice(NEXT)?;
    }
    bytes.extend_from_slice(TERMINATE)?;
    Ok(bytes)
}

/// Serves a client that asks again and again, and returns the numbers that it was told. None says
/// that a reply is broken, or that memory ran out.
fn numbers_told<R: Wait + Drop, J: Naming>(
    alloc: Global,
    handlers: SharedHandlers<R, J, SharedCounter>,
) -> Option<Vec<u64>> {
    let key = SecretKey::try_new(alloc, &[1, 2, 3, 4]).ok()?;
    let mut desk = ScriptDesk::new(alloc, 7, key, PgList::new(alloc));
    let client = asked(alloc).ok()?;
    let mut source = MemorySource::new(
        PgBytes::from_vec(client),
        PgList::new(alloc),
        PgList::new(alloc),
    );
    let mut sink = MemorySink::new(alloc, PgList::new(alloc));
    let store = MemPortalStore::new(alloc);
    let end = serve_moving(
        alloc,
        handlers,
        store,
        &mut desk,
        &mut source,
        &mut sink,
        1000,
    );
    let mut numbers = no_numbers(alloc);
    let are_whole = put_numbers(&mut numbers, sink.bytes()).ok()?;
    if end.is_ok() && are_whole {
        Some(numbers)
    } else {
        None
    }
}

/// The numbers that two clients are told, on threads of their own.
fn told_to_two<R: Threads + Wait + Sync, J: Naming + Send + Sync>(
    rt: &R,
    alloc: Global,
    opened: Opened<Course<SharedCounter>>,
) -> Option<(Vec<u64>, Vec<u64>)>
    requires { opened ≡ J.table }
{
    let first: SharedHandlers<&R, J, SharedCounter> = SharedHandlers::new(rt, alloc, opened).ok()?;
    let second = first.share(rt, alloc).ok()?;
    let (one, other) = join(
        rt,
        || -> Option<Vec<u64>>
            requires { IsSync R.row }
        { numbers_told(alloc, first) },
        || -> Option<Vec<u64>>
            requires { IsSync R.row }
        { numbers_told(alloc, second) },
    );
    Some((one?, other?))
}

/// Whether all numbers are told once, and each client is told them in their order.
fn are_told_once(alloc: Global, one: Vec<u64>, other: &[u64]) -> Option<bool> {
    let mut all = no_numbers(alloc);
    all.extend_from_slice(one.as_slice()).ok()?;
    all.extend_from_slice(other).ok()?;
    Some(do_rise(one.as_slice()) && do_rise(other) && are_all(all.as_slice(), 2 * TIMES))
}

/// Two clients, each of which asks 200 times, are told the numbers from 1 to 400.
#[test]
fn two_clients_are_told_each_number_once(rt: HostRuntime) -> Result<(), Fail> {
    let alloc = rt.alloc();
    let (one, other) = told_to_two::<_, Brand>(&rt, alloc, Opened::new(alloc)?).ok_or(
        "both are served",
    )?;
    let are_so = are_told_once(alloc, one, other.as_slice());
    assert!(rt; are_so == Some(true));
    Ok(())
}
