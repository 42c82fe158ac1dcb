//! What takes in connections, over fakes that tell which connections are to come and which jobs were
//! taken.

ghost use Rattle.std.specs.Prelude.{◌≡◌, IfSome};

use conversation_runs::{Sink, SinkError, Source, SourceFailed};
use pg_messages::{PgList, SecretKey};
use pg_serve::{AcceptFailed, Acceptor, KeySource, SpawnFailed, Spawner};
use relation_server::{ConnectionJob, RelationTable, listen};
use sample_registry::Registry;
use std::alloc::{AllocError, Global};
use std::collections::VecDeque;
use std::sync::{Arc, Wait};

/// An end of a connection whose client sends nothing. It has the connection's number, and counts the
/// bytes that it is sent.
#[derive(Drop)]
struct Numbered {
    number: u64,
    sent: u64,
}

impl Numbered {
    fn new(number: u64) -> Numbered {
        Numbered { number, sent: 0 }
    }
}

impl Source for Numbered {
    ghost use Rattle.std.specs.Prelude.{None};

    ghost left = { λ _. None };

    ghost reads = { λ _. 0 };

    ghost faults = { λ _. 0 };

    fn receive(&mut self, _into: &mut [u8]) -> Result<usize, SourceFailed> {
        Ok(0)
    }
}

impl Sink for Numbered {
    ghost use Rattle.std.specs.Prelude.{None};

    ghost written = { λ _. None };

    ghost faults = { λ _. 0 };

    ghost refused = { λ _. 0 };

    ghost sent = { λ s. s.sent };

    fn send(&mut self, bytes: &[u8]) -> Result<(), SinkError> {
        self.sent = self.sent.saturating_add(bytes.len() as u64);
        Ok(())
    }
}

/// Connections that wait to be accepted, and no others.
#[derive(Drop)]
struct Waiting {
    connections: VecDeque<(Numbered, Numbered)>,
    accepted: u64,
    faults: u64,
}

impl Acceptor for Waiting {
    ghost use Rattle.std.specs.Prelude.{Some};

    type In = Numbered;

    type Out = Numbered;

    ghost faults = { λ a. a.faults };

    ghost accepted = { λ a. a.accepted };

    ghost coming = { λ a. Some a.connections.items };

    fn accept(&mut self) -> Result<(Numbered, Numbered), AcceptFailed> {
        let Some(connection) = self.connections.pop_front() else {
            self.faults = self.faults.saturating_add(1);
            return Err(AcceptFailed {});
        };
        self.accepted += 1;
        Ok(connection)
    }
}

/// The job of such a connection.
type NumberedJob = ConnectionJob<Numbered, Numbered>;

/// Jobs that were taken, and are kept.
#[derive(Drop)]
struct Keeping {
    jobs: Vec<NumberedJob>,
    started: u64,
    faults: u64,
}

impl Spawner<NumberedJob> for Keeping {
    ghost use Rattle.std.specs.Prelude.{Some};

    ghost faults = { λ s. s.faults };

    ghost started = { λ s. s.started };

    ghost taken = { λ s. Some s.jobs.items };

    fn start(&mut self, job: NumberedJob) -> Result<(), SpawnFailed> {
        if self.jobs.push(job).is_err() {
            self.faults = self.faults.saturating_add(1);
            return Err(SpawnFailed {});
        }
        self.started += 1;
        Ok(())
    }
}

/// One key for all connections.
#[derive(Drop)]
struct OneKey {
    alloc: Global,
}

impl KeySource for OneKey {
    fn next_key(&mut self) -> Result<SecretKey, AllocError> {
        SecretKey::try_new(self.alloc, &[1, 2, 3, 4]).map_err(|_| AllocError)
    }
}

/// How many connections wait.
const CONNECTIONS: u64 = 3;

/// How many turns each has.
const TURNS: u64 = 5;

/// Connections wait, with numbers from 1 on.
fn make_waiting(alloc: Global) -> Option<Waiting>
    ensures { IfSome result (λ waiting. waiting.accepted ≡ 0) }
{
    let mut connections = VecDeque::new(alloc);
    for number in 1..=CONNECTIONS {
        let connection = (Numbered::new(number), Numbered::new(number));
        connections.push_back(connection).ok()?;
    }
    Some(Waiting {
        connections,
        accepted: 0,
        faults: 0,
    })
}

/// Takes in the connections that wait, as many as `count`, or all, and gives what was kept, how many
/// were accepted, and whether all went well.
fn take_in<R: Wait>(
    rt: &R,
    registry: &mut Registry,
    count: Option<u64>,
) -> Option<(Keeping, u64, bool)> {
    let alloc = registry.alloc;
    let mut waiting = make_waiting(alloc)?;
    let mut keeping = Keeping {
        jobs: Vec::new(alloc),
        started: 0,
        faults: 0,
    };
    let mut keys = OneKey { alloc };
    let table = RelationTable::try_new(alloc, PgList::new(alloc)).ok()?;
    let relations = Arc::new(alloc, table).ok()?;
    let manager = Arc::try_clone(&registry.manager).ok()?;
    let taken = listen(
        rt,
        &mut waiting,
        &mut keeping,
        &mut keys,
        manager,
        &mut registry.door,
        relations,
        TURNS,
        count,
    );
    Some((keeping, waiting.accepted, taken.is_ok()))
}

/// Whether a job is that of the connection of this number: it has its two ends, the pid of this
/// number, and the turns and the relations that all have.
fn is_job_of(job: &NumberedJob, number: u64) -> bool {
    u64::try_from(job.handle.pid()) == Ok(number)
        && job.source.number == number
        && job.sink.number == number
        && job.turn_limit == TURNS
        && job.relations.relations().is_empty()
}

/// Whether each job is that of the connection of its number, from 1 on.
fn are_jobs(jobs: &[NumberedJob]) -> bool {
    let mut number = 0u64;
    let mut are_so = true;
    for job in jobs {
        number = number.saturating_add(1);
        are_so = are_so && is_job_of(job, number);
    }
    are_so
}

/// Whether, of connections that wait, as many as `count` become jobs, each its own, and all go well
/// or not.
fn become_jobs<R: Wait>(
    rt: &R,
    alloc: Global,
    count: Option<u64>,
    jobs: u64,
    all_go_well: bool,
) -> bool {
    let Some(mut registry) = Registry::new(alloc) else {
        return false;
    };
    let Some((keeping, accepted, is_ok)) = take_in(rt, &mut registry, count) else {
        return false;
    };
    keeping.started == jobs
        && accepted == jobs
        && are_jobs(keeping.jobs.as_slice())
        && is_ok == all_go_well
}

/// Each connection becomes the job of its own pid, in order, as many as are wanted. Where more are
/// wanted than wait, those that wait become jobs, and the fault is told.
#[test]
fn each_connection_becomes_its_own_job(rt: HostRuntime) {
    let alloc = rt.alloc();
    assert!(rt; become_jobs(&rt, alloc, Some(0), 0, true));
    assert!(rt; become_jobs(&rt, alloc, Some(2), 2, true));
    assert!(rt; become_jobs(&rt, alloc, Some(3), 3, true));
    assert!(rt; become_jobs(&rt, alloc, Some(4), 3, false));
    assert!(rt; become_jobs(&rt, alloc, None, 3, false));
}

/// Whether the connection of a job, whose pid is 1, hears a cancel through this registry.
fn is_heard<R: Wait>(rt: &R, registry: &mut Registry, job: NumberedJob) -> Option<bool> {
    let ConnectionJob {
        manager,
        relations: _relations,
        handle,
        source: _source,
        sink: _sink,
        turn_limit: _turn_limit,
    } = job;
    let mut handle = handle;
    let mut canceler = registry.register(rt, 9)?;
    let key = registry.key()?;
    manager.start_query(rt, &mut handle).ok()?;
    let is_met = registry.manager.cancel(rt, &mut canceler, 1, &key).ok()?;
    Some(is_met && manager.ask(rt, &mut handle).ok()?)
}

/// Whether it is so of the job of a connection that was taken in at the registry.
fn is_heard_at<R: Wait>(rt: &R, registry: &mut Registry) -> Option<bool> {
    let (mut keeping, _, _) = take_in(rt, registry, Some(1))?;
    let job = keeping.jobs.pop()?;
    is_heard(rt, registry, job)
}

/// A job has the registry that its connection was registered at.
#[test]
fn a_job_hears_a_cancel(rt: HostRuntime) {
    let told = match Registry::new(rt.alloc()) {
        Some(mut registry) => is_heard_at(&rt, &mut registry),
        None => None,
    };
    assert!(rt; told == Some(true));
}
