//! Jobs on threads: threads that can't be started, and who waits for their end.

ghost use Rattle.std.specs.Prelude.{◌≡◌, IfSome};
ghost use Rattle.std.specs.Arc.{arc_value};
ghost use Rattle.many_clients.specs.Registrations.{IsFresh};
ghost use Rattle.pg_streams.specs.Sockets.{reads_of};

use pg_cancel::ConnectionManager;
use pg_messages::PgList;
use pg_serve::{Counted, MaybeTls, Spawner};
use relation_server::{ConnectionJob, JobThreads, RelationTable, ThreadSpawner, Tries};
use sample_registry::Registry;
use std::alloc::Global;
use std::net::Net;
use std::os::unix::net::UnixStream;
use std::sync::atomic::{AtomicBool, Ordering};
use std::sync::{Arc, Wait};
use std::thread;
use std::thread::{JoinHandle, Threads};
use std::time::{Clock, Duration};

/// A job over a socket.
type SocketJob = ConnectionJob<MaybeTls, MaybeTls>;

/// The two ends of a stream at the server.
fn ends_of(stream: UnixStream) -> Option<(MaybeTls, MaybeTls)>
    ensures { IfSome result (λ ends. reads_of ends.0 ≡ 0) }
{
    let second = stream.try_clone().ok()?;
    Some((
        MaybeTls::Unix(Counted::new(stream)),
        MaybeTls::Unix(Counted::new(second)),
    ))
}

/// What jobs share: the registry, and a table without relations.
fn shared(registry: &Registry) -> Option<(Arc<ConnectionManager>, Arc<RelationTable>)>
    ensures { IfSome result (λ both. arc_value both.0 ≡ arc_value registry.now.manager) }
{
    let table = RelationTable::try_new(registry.alloc, PgList::new(registry.alloc)).ok()?;
    let relations = Arc::new(registry.alloc, table).ok()?;
    let manager = Arc::try_clone(&registry.manager).ok()?;
    Some((manager, relations))
}

/// The job of a client at a stream, under this pid.
fn job_at<R: Wait>(
    rt: &R,
    registry: &mut Registry,
    pid: i32,
    stream: UnixStream,
) -> Option<SocketJob>
    ensures { IfSome result (λ job. IsFresh (reads_of job.source) job.handle) }
{
    let (source, sink) = ends_of(stream)?;
    let (manager, relations) = shared(registry)?;
    let handle = registry.register(rt, pid)?;
    Some(ConnectionJob {
        manager,
        relations,
        handle,
        source,
        sink,
        turn_limit: 100,
    })
}

/// Starts the job of a client under this pid. It answers the client's end, where that needed one
/// try.
fn start_one<R: Threads + Wait + Clock + Net + Copy + Send + 'static>(
    rt: R,
    threads: &JobThreads,
    registry: &mut Registry,
    pid: i32,
) -> Option<UnixStream> {
    let (stream, served) = UnixStream::pair(&rt).ok()?;
    let tries = threads.start(rt, job_at(&rt, registry, pid, served)?);
    if tries.is_started && tries.failed == 0 {
        Some(stream)
    } else {
        None
    }
}

/// The job of a client that has gone, under this pid.
fn idle_job<R: Wait + Net>(rt: &R, registry: &mut Registry, pid: i32) -> Option<SocketJob>
    ensures { IfSome result (λ job. IsFresh (reads_of job.source) job.handle) }
{
    let (_client, served) = UnixStream::pair(rt).ok()?;
    job_at(rt, registry, pid, served)
}

/// What comes of starting a job for whose thread there is no room.
fn refused<R: Threads + Wait + Clock + Net + Copy + Send + 'static>(
    rt: R,
    threads: &JobThreads,
    registry: &mut Registry,
) -> Option<Tries> {
    let without_room = threads.share_with_stack(usize::MAX).ok()?;
    let job = idle_job(&rt, registry, 3)?;
    Some(without_room.start(rt, job))
}

/// How many milliseconds a client stays.
const WHILE: u64 = 200;

/// One client, if there is one, goes away after a while. Then another one does, and tells so just
/// before.
fn leave<R: Clock>(rt: &R, first: Option<UnixStream>, last: UnixStream, has_left: &AtomicBool) {
    rt.sleep(Duration::from_millis(WHILE));
    drop(first);
    rt.sleep(Duration::from_millis(WHILE));
    has_left.store(true, Ordering::SeqCst);
    drop(last);
}

/// A thread on which they do.
fn leaving<R: Threads + Clock + Copy + Send + 'static>(
    rt: R,
    first: Option<UnixStream>,
    last: UnixStream,
    has_left: &Arc<AtomicBool>,
) -> Option<JoinHandle<()>> {
    let theirs = Arc::try_clone(has_left).ok()?;
    thread::spawn(&rt, move || leave(&rt, first, last, &theirs)).ok()
}

/// Whether a job for whose thread there is no room is refused, after five or six tries. There are
/// six where another job ran at the first.
fn is_refused(tries: Option<Tries>) -> bool {
    tries.is_some_and(|tries| !tries.is_started && (tries.failed == 5 || tries.failed == 6))
}

/// Whether a job for whose thread there is no room is refused only after the end of another job,
/// which runs for a while.
fn is_refused_behind<R: Threads + Wait + Clock + Net + Copy + Send + 'static>(
    rt: R,
    threads: &JobThreads,
    registry: &mut Registry,
    has_left: &Arc<AtomicBool>,
) -> Option<bool> {
    let client = start_one(rt, threads, registry, 1)?;
    let client = leaving(rt, None, client, has_left)?;
    let is_refused = is_refused(refused(rt, threads, registry));
    let is_ended = has_left.load(Ordering::SeqCst);
    client.join(&rt);
    Some(is_refused && is_ended)
}

/// Whether that is so, and the other job has ended its registration.
fn is_refused_late<R: Threads + Wait + Clock + Net + Copy + Send + 'static>(
    rt: R,
    threads: &JobThreads,
    registry: &mut Registry,
) -> Option<bool> {
    let has_left = Arc::new(registry.alloc, AtomicBool::new(false)).ok()?;
    let is_refused = is_refused_behind(rt, threads, registry, &has_left)?;
    Some(is_refused && registry.is_free(&rt, 1))
}

/// Threads of which none runs a job, and a registry at which nobody is registered.
fn begun(alloc: Global) -> Option<(JobThreads, Registry)> {
    let threads = JobThreads::new(alloc).ok()?;
    let registry = Registry::new(alloc)?;
    Some((threads, registry))
}

/// Where no thread can be started, a job that runs is waited for, and the new job is refused after
/// five tries while none runs.
#[test]
fn a_job_waits_for_room(rt: HostRuntime) {
    let told = match begun(rt.alloc()) {
        Some((threads, mut registry)) => is_refused_late(rt, &threads, &mut registry),
        None => None,
    };
    assert!(rt; told == Some(true));
}

#[test]
fn a_job_is_refused_where_none_runs(rt: HostRuntime) {
    let told = match begun(rt.alloc()) {
        Some((threads, mut registry)) => refused(rt, &threads, &mut registry),
        None => None,
    };
    let is_started = false;
    assert!(rt;
        told == Some(Tries {
            is_started,
            failed: 5
        })
    );
}

/// A thread on which the clients of two jobs, under the pids 1 and 2, go away one after the other.
fn two_leaving<R: Threads + Wait + Clock + Net + Copy + Send + 'static>(
    rt: R,
    threads: &JobThreads,
    registry: &mut Registry,
    has_left: &Arc<AtomicBool>,
) -> Option<JoinHandle<()>> {
    let first = start_one(rt, threads, registry, 1)?;
    let last = start_one(rt, threads, registry, 2)?;
    leaving(rt, Some(first), last, has_left)
}

/// Waits for these jobs. It answers whether the last of the clients had left by then.
fn finish_leaving<R: Threads + Wait + Clock + Net + Copy + Send + 'static>(
    rt: R,
    threads: &JobThreads,
    registry: &mut Registry,
    has_left: &Arc<AtomicBool>,
) -> Option<bool> {
    let clients = two_leaving(rt, threads, registry, has_left)?;
    threads.finish(&rt);
    let is_over = has_left.load(Ordering::SeqCst);
    clients.join(&rt);
    Some(is_over)
}

/// Waits for the jobs of two clients, under the pids 1 and 2, which go away one after the other. It
/// answers whether the last of them had left by then, and both pids are free.
fn finish_two<R: Threads + Wait + Clock + Net + Copy + Send + 'static>(
    rt: R,
    threads: &JobThreads,
    registry: &mut Registry,
) -> Option<bool> {
    let has_left = Arc::new(registry.alloc, AtomicBool::new(false)).ok()?;
    let is_over = finish_leaving(rt, threads, registry, &has_left)?;
    Some(is_over && registry.is_free(&rt, 1) && registry.is_free(&rt, 2))
}

/// `finish` waits for each client that stays, and after it the jobs have ended their registrations.
#[test]
fn finish_waits_for_a_client_that_stays(rt: HostRuntime) {
    let told = match begun(rt.alloc()) {
        Some((threads, mut registry)) => finish_two(rt, &threads, &mut registry),
        None => None,
    };
    assert!(rt; told == Some(true));
}

/// Serves a client under this pid, who goes away at once, and answers whether the pid is free then.
fn serve_briefly<R: Threads + Wait + Clock + Net + Copy + Send + 'static>(
    rt: R,
    threads: &JobThreads,
    registry: &mut Registry,
    pid: i32,
) -> Option<bool> {
    let client = start_one(rt, threads, registry, pid)?;
    drop(client);
    threads.finish(&rt);
    Some(registry.is_free(&rt, pid))
}

/// How many milliseconds behind the end of one job the next one is started. A thread waits 50 for
/// the next job.
const PAUSES: [u64; 20] = [
    60, 61, 62, 63, 64, 65, 66, 67, 68, 69, 70, 71, 72, 73, 74, 75, 76, 77, 78, 80,
];

/// Serves clients in turn, with these pauses, and answers whether each pid is free then.
fn serve_in_turn<R: Threads + Wait + Clock + Net + Copy + Send + 'static>(
    rt: R,
    threads: &JobThreads,
    registry: &mut Registry,
) -> Option<bool> {
    let mut are_served = true;
    let mut pid = 1;
    for pause in PAUSES {
        let is_served = serve_briefly(rt, threads, registry, pid)?;
        are_served = are_served && is_served;
        pid = pid.wrapping_add(1);
        rt.sleep(Duration::from_millis(pause));
    }
    Some(are_served)
}

/// No job is given to a thread that has gone, so each one runs.
#[test]
fn jobs_behind_each_other_run(rt: HostRuntime) {
    let told = match begun(rt.alloc()) {
        Some((threads, mut registry)) => serve_in_turn(rt, &threads, &mut registry),
        None => None,
    };
    assert!(rt; told == Some(true));
}

/// Serves a client and right behind it two at once, of whom one may take the thread of the first.
/// It answers whether each pid is free then.
fn serve_two_behind<R: Threads + Wait + Clock + Net + Copy + Send + 'static>(
    rt: R,
    threads: &JobThreads,
    registry: &mut Registry,
) -> Option<bool> {
    let is_free = serve_briefly(rt, threads, registry, 3)?;
    let first = start_one(rt, threads, registry, 1)?;
    let second = start_one(rt, threads, registry, 2)?;
    drop(first);
    drop(second);
    threads.finish(&rt);
    Some(is_free && registry.is_free(&rt, 1) && registry.is_free(&rt, 2))
}

/// Of two jobs behind another one neither is given in the other's place, so both run.
#[test]
fn two_jobs_behind_another_run(rt: HostRuntime) {
    let told = match begun(rt.alloc()) {
        Some((threads, mut registry)) => serve_two_behind(rt, &threads, &mut registry),
        None => None,
    };
    assert!(rt; told == Some(true));
}

/// A spawner that gives this answer to each job.
fn answering(alloc: Global, tries: Tries) -> Option<ThreadSpawner<()>>
    ensures { IfSome result (λ spawner. spawner.started ≡ 0) }
{
    let Ok(start) = Box::new(alloc, move |_job: SocketJob| tries) else {
        return None;
    };
    Some(ThreadSpawner::new((), start))
}

/// Whether a job, under this pid, is taken as started by a spawner that has started none.
fn is_taken<R: Wait + Net>(
    rt: &R,
    registry: &mut Registry,
    pid: i32,
    spawner: &mut ThreadSpawner<()>,
) -> Option<bool>
    requires { spawner.old.started ≡ 0 }
{
    let job = idle_job(rt, registry, pid)?;
    Some(spawner.start(job).is_ok())
}

/// What a spawner tells of a job, under this pid, that gets this answer: whether it is taken as
/// started, and the count of faults.
fn counted<R: Wait + Net>(
    rt: &R,
    registry: &mut Registry,
    pid: i32,
    tries: Tries,
) -> Option<(bool, u64)> {
    let mut spawner = answering(registry.alloc, tries)?;
    let is_started = is_taken(rt, registry, pid, &mut spawner)?;
    Some((is_started, spawner.faults()))
}

/// Answers to jobs, and what a spawner tells of them.
const ANSWERS: [(i32, bool, u64, u64); 4] = [
    (1, true, 0, 0),
    (2, true, 3, 3),
    (3, false, 0, 1),
    (4, false, 2, 2),
];

/// Whether a spawner tells that of each.
fn are_counted<R: Wait + Net>(rt: &R, registry: &mut Registry) -> bool {
    let mut are_so = true;
    for (pid, is_started, failed, faults) in ANSWERS {
        let told = counted(rt, registry, pid, Tries { is_started, failed });
        are_so = are_so && told == Some((is_started, faults));
    }
    are_so
}

/// Each try that failed is counted, and a refusal is counted in any case.
#[test]
fn failed_tries_are_counted(rt: HostRuntime) {
    let are_so = match Registry::new(rt.alloc()) {
        Some(mut registry) => are_counted(&rt, &mut registry),
        None => false,
    };
    assert!(rt; are_so);
}
