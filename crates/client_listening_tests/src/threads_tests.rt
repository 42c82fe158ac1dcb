//! Clients at sockets, who are served on threads of their own.

use crate::clients::is_served;
use crate::stage::Stage;
use std::net::Net;
use std::os::unix::net::UnixStream;
use std::sync::atomic::{AtomicBool, Ordering};
use std::sync::{Arc, Wait};
use std::thread;
use std::thread::{JoinHandle, Threads};
use std::time::{Clock, Duration};

/// How many clients come one behind the other.
const IN_TURN: i32 = 50;

/// Serves one client under this pid, and answers whether it was served whole and its pid is free
/// then. Its thread may still be there, and waits for the next client.
fn is_served_alone<R: Threads + Wait + Clock + Net + Copy + Send + 'static>(
    rt: R,
    stage: &mut Stage,
    pid: i32,
) -> Option<bool> {
    let mut client = stage.start(rt, pid)?;
    let is_served = is_served(&mut client, pid);
    Some(is_served && stage.registry.is_free(&rt, pid))
}

/// Whether that is so of each of fifty clients, each right behind the one before it.
fn are_served_in_turn<R: Threads + Wait + Clock + Net + Copy + Send + 'static>(
    rt: R,
    stage: &mut Stage,
) -> Option<bool> {
    let mut are_served = true;
    for pid in 1..=IN_TURN {
        let is_served = is_served_alone(rt, stage, pid)?;
        are_served = are_served && is_served;
    }
    Some(are_served)
}

/// Whether a second client, whom another owner starts, is served whole while the first one stays, and
/// then the first one is, and both pids are free in the end.
fn are_two_served<R: Threads + Wait + Clock + Net + Copy + Send + 'static>(
    rt: R,
    stage: &mut Stage,
) -> Option<bool> {
    let mut first = stage.start(rt, 101)?;
    let mut second = stage.start_by_another(rt, 102)?;
    let are_served = is_served(&mut second, 102) && is_served(&mut first, 101);
    stage.server.threads.finish(&rt);
    Some(are_served && stage.registry.is_free(&rt, 101) && stage.registry.is_free(&rt, 102))
}

/// Whether all of it is so, in this order.
fn are_all_served<R: Threads + Wait + Clock + Net + Copy + Send + 'static>(
    rt: R,
    stage: &mut Stage,
) -> Option<bool> {
    let in_turn = are_served_in_turn(rt, stage)?;
    let at_once = are_two_served(rt, stage)?;
    Some(in_turn && at_once)
}

/// Fifty clients come one behind the other, and then two at once while the thread of the last waits
/// for a next one. Each is served whole, and its registration ends.
#[test]
fn clients_of_a_service_are_served(rt: HostRuntime) {
    let told = match Stage::new(rt.alloc()) {
        Some(mut stage) => are_all_served(rt, &mut stage),
        None => None,
    };
    assert!(rt; told == Some(true));
}

/// How many milliseconds a client stays.
const WHILE: u64 = 200;

/// Two clients go away one after the other. They tell so just before the last does.
fn leave<R: Clock>(rt: &R, first: UnixStream, last: UnixStream, has_left: &AtomicBool) {
    rt.sleep(Duration::from_millis(WHILE));
    drop(first);
    rt.sleep(Duration::from_millis(WHILE));
    has_left.store(true, Ordering::SeqCst);
    drop(last);
}

/// A thread on which two clients do, whom two owners have started.
fn leaving<R: Threads + Wait + Clock + Net + Copy + Send + 'static>(
    rt: R,
    stage: &mut Stage,
    has_left: &Arc<AtomicBool>,
) -> Option<JoinHandle<()>> {
    let first = stage.start(rt, 1)?;
    let last = stage.start_by_another(rt, 2)?;
    let theirs = Arc::try_clone(has_left).ok()?;
    thread::spawn(&rt, move || leave(&rt, first, last, &theirs)).ok()
}

/// Waits for them by a third owner. It answers whether both had left by then, and both pids are free.
fn are_waited_for<R: Threads + Wait + Clock + Net + Copy + Send + 'static>(
    rt: R,
    stage: &mut Stage,
    has_left: &Arc<AtomicBool>,
) -> Option<bool> {
    let clients = leaving(rt, stage, has_left)?;
    stage.server.threads.finish(&rt);
    let have_left = has_left.load(Ordering::SeqCst);
    clients.join(&rt);
    Some(have_left && stage.registry.is_free(&rt, 1) && stage.registry.is_free(&rt, 2))
}

/// One owner waits for the clients of each other owner.
#[test]
fn clients_of_each_owner_are_waited_for(rt: HostRuntime) {
    let told = match (
        Stage::new(rt.alloc()),
        Arc::new(rt.alloc(), AtomicBool::new(false)),
    ) {
        (Some(mut stage), Ok(has_left)) => are_waited_for(rt, &mut stage, &has_left),
        _ => None,
    };
    assert!(rt; told == Some(true));
}
