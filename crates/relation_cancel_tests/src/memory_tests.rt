//! Queries of one connection, and cancels of them from another thread.

ghost use Rattle.std.specs.Prelude.{◌≡◌};
ghost use Rattle.std.specs.Arc.{arc_value};

use crate::clients::{BEGUN, CANCELED, STARTUP};
use conversation_runs::{Source, SourceFailed};
use pg_cancel::{ConnectionHandle, ConnectionManager};
use pg_client::EndKind;
use pg_messages::{PgList, SecretKey};
use pg_serve::MemorySink;
use relation_server::{built_in_table, serve_relations};
use sample_registry::Registry;
use std::alloc::Global;
use std::sync::{Arc, Wait};
use std::thread;
use std::thread::Threads;

/// How many queries one thread makes, and how many cancels the other one.
const ROUNDS: u32 = 100;

/// A simple query of `slow`, which two polls find unready.
const QUERY: &[u8] = b"Q\0\0\0\x09slow\0";

/// Its replies where it isn't canceled: RowDescription, DataRow, CommandComplete, ReadyForQuery.
const ANSWERED: &[u8] = b"T\0\0\0\x1d\0\x01span\0\0\0\0\0\0\0\0\0\x04\xa2\0\x10\xff\xff\xff\xff\0\0\
D\0\0\0\x0f\0\x01\0\0\0\x051 day\
C\0\0\0\x0dSELECT 1\0\
Z\0\0\0\x05I";

/// A connection that cancels the queries of another one.
#[derive(Drop)]
struct Canceler {
    manager: Arc<ConnectionManager>,
    handle: ConnectionHandle,
    ghost issued: { handle.issuer ≡ arc_value manager },
}

impl Canceler {
    /// Cancels by the pid 7 and this key, again and again, and tells how often a connection had them.
    fn cancel<R: Wait>(&mut self, rt: &R, key: &SecretKey) -> u32 {
        let mut met = 0u32;
        for _ in 0..ROUNDS {
            let made = self.manager.cancel(rt, &mut self.handle, 7, key);
            met = met.saturating_add(u32::from(made.unwrap_or(false)));
            thread::yield_now();
        }
        met
    }
}

/// What the other thread does.
fn run<R: Wait>(rt: &R, canceler: Canceler, key: &SecretKey) -> u32 {
    let mut canceler = canceler;
    canceler.cancel(rt, key)
}

/// A client that sends its startup packet, makes all queries, and then terminates, and gives the
/// processor away before each.
#[derive(Drop)]
struct Asking {
    reads: u64,
}

/// What it sends at the read of this number.
fn piece(number: u64) -> &'static [u8] {
    if number == 0 {
        STARTUP
    } else if number <= u64::from(ROUNDS) {
        QUERY
    } else {
        b"X\0\0\0\x04"
    }
}

impl Source for Asking {
    ghost use Rattle.std.specs.Prelude.{None};

    ghost left = { λ _. None };

    ghost reads = { λ s. s.reads };

    ghost faults = { λ _. 0 };

    fn receive(&mut self, into: &mut [u8]) -> Result<usize, SourceFailed> {
        thread::yield_now();
        let piece = piece(self.reads);
        let n = piece.len().min(into.len());
        into[..n].copy_from_slice(&piece[..n]);
        if n > 0 {
            self.reads = self.reads.saturating_add(1);
        }
        Ok(n)
    }
}

/// How many of the queries were canceled, where each was answered by its row or by that, and
/// nothing else was written.
fn canceled_among(replies: &[u8]) -> Option<u32> {
    let mut rest = replies.strip_prefix(BEGUN)?;
    let mut canceled = 0u32;
    for _ in 0..ROUNDS {
        rest = match rest.strip_prefix(ANSWERED) {
            Some(behind) => behind,
            None => {
                canceled = canceled.saturating_add(1);
                rest.strip_prefix(CANCELED)?
            }
        };
    }
    if rest.is_empty() {
        Some(canceled)
    } else {
        None
    }
}

/// Whether each of the queries of a client is answered by its row, or that it was canceled.
fn are_answered<R: Wait>(
    rt: &R,
    alloc: Global,
    manager: &ConnectionManager,
    handle: &mut ConnectionHandle,
) -> Option<bool>
    requires issued { handle.old.issuer ≡ manager.now }
{
    let table = built_in_table(alloc).ok()?;
    let mut sink = MemorySink::new(alloc, PgList::new(alloc));
    let source = &mut Asking { reads: 0 };
    let answer = serve_relations(rt, alloc, manager, handle, &table, source, &mut sink, 1000);
    Some(answer == Ok(EndKind::Terminate) && canceled_among(sink.bytes()).is_some())
}

/// A thread on which the connection of pid 8 cancels at a registry.
fn cancels_at<R: Wait + Threads + Copy + Send + 'static>(
    rt: R,
    registry: &mut Registry,
) -> Option<thread::JoinHandle<u32>>
    ensures manager { registry.new.manager ≡ registry.old.manager }
{
    let key = registry.key()?;
    let handle = registry.register(&rt, 8)?;
    let manager = Arc::try_clone(&registry.manager).ok()?;
    let canceler = Canceler { manager, handle };
    thread::spawn(&rt, move || run(&rt, canceler, &key)).ok()
}

/// Whether that is so while cancels come from another thread, and each cancel meets the connection.
fn are_answered_beside<R: Wait + Threads + Copy + Send + 'static>(
    rt: R,
    registry: &mut Registry,
) -> Option<bool> {
    let mut handle = registry.register(&rt, 7)?;
    let canceler = cancels_at(rt, registry)?;
    let told = are_answered(&rt, registry.alloc, &registry.manager, &mut handle);
    Some(canceler.join(&rt) == ROUNDS && told == Some(true))
}

/// A hundred queries meet a hundred cancels: each is answered by its row, or that it was canceled.
#[test]
fn a_hundred_cancels(rt: HostRuntime) {
    let told = match Registry::new(rt.alloc()) {
        Some(mut registry) => are_answered_beside(rt, &mut registry),
        None => None,
    };
    assert!(rt; told == Some(true));
}
