//! Connections on threads of their own, over one manager.
ghost use Rattle.std.specs.Prelude.{◌≡◌};
ghost use Rattle.std.specs.Thread.{IsSync};

use crate::notes::{Counts, Mix};
use crate::plain::is_legal;
use crate::worker::{
    Worker, are_in_order, are_within_cancels, counts_of, end_all, registered, workers,
};
use pg_cancel::{ConnectionManager, Door, Registry};
use std::alloc::{AllocError, Global};
use std::sync::Wait;
use std::thread::Threads;
use std::time::{Clock, Instant};
use std::{io, thread};

const THREADS: u32 = 8;

/// What came of the calls.
#[derive(Clone, Copy)]
pub struct Told {
    pub heard: Heard,
    pub entries: u64,
    pub legal: bool,
}

/// What the threads were answered.
#[derive(Clone, Copy)]
pub struct Heard {
    pub counts: Counts,
    pub in_order: bool,
    pub within: bool,
}

/// What comes of `calls` calls on each thread, and then the end of each connection. The number of a
/// registration after all of them is how many entries there were. None where there was no memory.
pub fn stressed<R: Threads + Wait + Sync>(rt: &R, alloc: Global, calls: u64) -> Option<Told> {
    let (heard, entries) = at_once(rt, alloc, calls)?;
    let legal = in_turn(rt, alloc, calls).ok()?;
    Some(Told {
        heard,
        entries,
        legal,
    })
}

/// What the threads are answered, and how many entries there are after it. None where there was no
/// memory.
fn at_once<R: Threads + Wait + Sync>(rt: &R, alloc: Global, calls: u64) -> Option<(Heard, u64)> {
    let (manager, mut door) = ConnectionManager::new(alloc).ok()?;
    heard_at(rt, alloc, &manager, &mut door, calls)
}

/// What the threads are answered at this registry, and how many entries there are after it. None
/// where there was no memory.
fn heard_at<R: Threads + Wait + Sync>(
    rt: &R,
    alloc: Global,
    manager: &ConnectionManager,
    door: &mut Door,
    calls: u64,
) -> Option<(Heard, u64)>
    requires issued { door.old.issuer ≡ manager.now }
{
    let heard = called(rt, alloc, manager, door, calls)?;
    let entries = entries_so_far(rt, alloc, manager, door)?;
    Some((heard, entries))
}

/// How many entries there are: the number of a registration after all of them. None where there was
/// no memory.
fn entries_so_far<R: Wait>(
    rt: &R,
    alloc: Global,
    manager: &ConnectionManager,
    door: &mut Door,
) -> Option<u64>
    requires issued { door.old.issuer ≡ manager.now }
{
    match registered(rt, alloc, manager, door, 0) {
        Ok(last) => Some(last.number()),
        Err(_) => None,
    }
}

/// Whether connections that make `calls` calls each, in turn, get the answers of a plain `Registry`
/// that takes the same calls, and whether its history is legal.
fn in_turn<R: Wait>(rt: &R, alloc: Global, calls: u64) -> Result<bool, AllocError> {
    let (manager, mut door) = ConnectionManager::new(alloc)?;
    in_turn_at(rt, alloc, &manager, &mut door, calls)
}

/// The same for connections of this manager.
fn in_turn_at<R: Wait>(
    rt: &R,
    alloc: Global,
    manager: &ConnectionManager,
    door: &mut Door,
    calls: u64,
) -> Result<bool, AllocError>
    requires issued { door.old.issuer ≡ manager.now }
{
    match workers(rt, alloc, manager, door, THREADS) {
        Some(mut all) => are_legal_too(rt, alloc, all.as_mut_slice(), calls),
        None => Err(AllocError),
    }
}

/// The same for these connections.
fn are_legal_too<R: Wait>(
    rt: &R,
    alloc: Global,
    all: &mut [Worker<'_>],
    calls: u64,
) -> Result<bool, AllocError> {
    let mut beside = Registry::new(alloc);
    Ok(are_alike(rt, all, &mut beside, calls)? && is_legal(alloc, beside.history())?)
}

/// Whether connections that register, and then make `calls` calls each, in turn, get the answers of
/// the registry `beside`.
fn are_alike<R: Wait>(
    rt: &R,
    all: &mut [Worker<'_>],
    beside: &mut Registry,
    calls: u64,
) -> Result<bool, AllocError> {
    let mut same = are_registered(all, beside)?;
    for call in 0..calls {
        same = round_agrees(rt, all, beside, call)? && same;
    }
    Ok(same)
}

/// Registers the connections at `beside` too, and answers whether they have the same numbers there.
fn are_registered(all: &[Worker<'_>], beside: &mut Registry) -> Result<bool, AllocError> {
    let mut same = true;
    for worker in all {
        same = worker.registers(beside)? && same;
    }
    Ok(same)
}

/// Makes a call of each connection, at `beside` too, and answers whether all answers are the same.
fn round_agrees<R: Wait>(
    rt: &R,
    all: &mut [Worker<'_>],
    beside: &mut Registry,
    call: u64,
) -> Result<bool, AllocError> {
    let mut same = true;
    for worker in all.iter_mut() {
        same = worker.agrees(rt, beside, call)? && same;
    }
    Ok(same)
}

/// What comes of the calls on each of `THREADS` threads, and of the end of each connection. None
/// where there was no memory.
fn called<R: Threads + Wait + Sync>(
    rt: &R,
    alloc: Global,
    manager: &ConnectionManager,
    door: &mut Door,
    calls: u64,
) -> Option<Heard>
    requires issued { door.old.issuer ≡ manager.now }
    ensures issued { door.new.issuer ≡ door.old.issuer }
{
    let all = workers(rt, alloc, manager, door, THREADS)?;
    match after_all(rt, all, Mix::All, calls) {
        Some(all) => heard_by(rt, all),
        None => None,
    }
}

/// These connections after `calls` calls of each, on threads of their own. None where there was no
/// memory.
fn after_all<'a, R: Threads + Wait + Sync>(
    rt: &R,
    all: Vec<Worker<'a>>,
    mix: Mix,
    calls: u64,
) -> Option<Vec<Worker<'a>>> {
    thread::map_vec(rt, all, &|worker: Worker| worker.after(rt, mix, calls)).ok()
}

/// What these connections were answered, whose registrations end. None where there was no memory.
fn heard_by<R: Wait>(rt: &R, all: Vec<Worker<'_>>) -> Option<Heard> {
    let in_order = are_in_order(&all);
    let within = are_within_cancels(&all);
    let counts = counts_of(&all);
    if !end_all(rt, all) {
        return None;
    }
    Some(Heard {
        counts: counts?,
        in_order,
        within,
    })
}

/// Nanoseconds of a start or a question, where `threads` threads make `calls` each, after `entries`
/// entries. 0 where there was no memory or no call.
pub fn timed<R: Threads + Wait + Clock + Sync>(
    rt: &R,
    alloc: Global,
    threads: u32,
    entries: u64,
    calls: u64,
) -> io::Result<u128> {
    let Ok((manager, mut door)) = ConnectionManager::new(alloc) else {
        return Ok(0);
    };
    let nanoseconds = match longer(rt, alloc, &manager, &mut door, threads, entries) {
        Some(all) => timed_queries(rt, all, calls),
        None => Ok(0),
    };
    Ok(nanoseconds? / (u128::from(threads.max(1)) * u128::from(calls.max(1))))
}

/// Nanoseconds of `calls` starts and questions of each connection, on threads of their own. 0 where
/// there was no memory.
fn timed_queries<R: Threads + Wait + Clock + Sync>(
    rt: &R,
    all: Vec<Worker<'_>>,
    calls: u64,
) -> io::Result<u128> {
    let start = Instant::now(rt)?;
    let all = after_all(rt, all, Mix::Queries, calls);
    let nanoseconds = start.elapsed(rt)?.as_nanos();
    Ok(if are_there(all) { nanoseconds } else { 0 })
}

/// Whether there was memory.
fn are_there(all: Option<Vec<Worker<'_>>>) -> bool {
    all.is_some()
}

/// `threads` connections, the first of which has made `entries` calls.
fn longer<'a, R: Wait>(
    rt: &R,
    alloc: Global,
    manager: &'a ConnectionManager,
    door: &mut Door,
    threads: u32,
    entries: u64,
) -> Option<Vec<Worker<'a>>>
    requires issued { door.old.issuer ≡ manager.now }
    ensures issued { door.new.issuer ≡ door.old.issuer }
{
    let mut all = workers(rt, alloc, manager, door, threads)?;
    if let Some(first) = all.first_mut() {
        first.run(rt, Mix::Queries, entries);
    }
    Some(all)
}
