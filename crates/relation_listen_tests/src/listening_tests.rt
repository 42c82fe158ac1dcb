//! The program that listens, over fakes of acceptors, spawners and keys.

ghost use Rattle.std.specs.Prelude.{◌≡◌};

use conversation_runs::{Sink, SinkError, Source, SourceFailed};
use pg_messages::{PgBytes, PgList, PgStr, SecretKey};
use pg_serve::{AcceptFailed, Acceptor, KeySource, MemorySink, MemorySource, SpawnFailed, Spawner};
use relation_server::{ConnectionJob, RelationTable, run_listen};
use sample_registry::Registry;
use std::alloc::{AllocError, Global};
use std::sync::{Arc, Wait};

/// An end of a connection whose client sends nothing and takes nothing. It counts its calls.
#[derive(Drop)]
struct Silence {
    calls: u64,
}

impl Source for Silence {
    ghost use Rattle.std.specs.Prelude.{None};

    ghost left = { λ _. None };

    ghost reads = { λ _. 0 };

    ghost faults = { λ _. 0 };

    fn receive(&mut self, _into: &mut [u8]) -> Result<usize, SourceFailed> {
        self.calls = self.calls.saturating_add(1);
        Ok(0)
    }
}

impl Sink for Silence {
    ghost use Rattle.std.specs.Prelude.{None};

    ghost written = { λ _. None };

    ghost faults = { λ _. 0 };

    ghost refused = { λ s. s.calls };

    ghost sent = { λ _. 0 };

    fn send(&mut self, _bytes: &[u8]) -> Result<(), SinkError> {
        self.calls = self.calls.saturating_add(1);
        Err(SinkError::NoMemory)
    }
}

/// The number of a call that is never made.
const NEVER: u64 = 1000;

/// Gives connections whose clients send nothing, and fails at the call of this number.
#[derive(Drop)]
struct Silent {
    fails_at: u64,
    calls: u64,
    accepted: u64,
    faults: u64,
}

impl Acceptor for Silent {
    type In = Silence;

    type Out = Silence;

    ghost faults = { λ a. a.faults };

    ghost accepted = { λ a. a.accepted };

    fn accept(&mut self) -> Result<(Silence, Silence), AcceptFailed> {
        let call = self.calls;
        self.calls = call.saturating_add(1);
        if call == self.fails_at {
            self.faults = self.faults.saturating_add(1);
            return Err(AcceptFailed {});
        }
        self.accepted += 1;
        Ok((Silence { calls: 0 }, Silence { calls: 0 }))
    }
}

/// The job of a connection whose client sends nothing.
type SilentJob = ConnectionJob<Silence, Silence>;

/// Drops its jobs, and counts those that are as they should be. It fails at the call of this number.
#[derive(Drop)]
struct Judging {
    fails_at: u64,
    calls: u64,
    started: u64,
    faults: u64,
    good: u64,
}

/// Whether these are the relations of the file.
fn are_of_the_file(table: &RelationTable) -> bool {
    match table.relations() {
        [relation] => relation.name.as_str() == "shifts" && relation.rows.len() == 1,
        _ => false,
    }
}

/// The pid of the connection of this number, from 0.
fn pid_of(number: u64) -> Option<i32> {
    i32::try_from(number.saturating_add(1)).ok()
}

/// Whether a job is that of the connection of this number, from 0: it has that connection's pid and
/// key, and the program's turns and relations, and nothing was read or written.
fn is_good(job: &SilentJob, number: u64) -> bool {
    pid_of(number) == Some(job.handle.pid())
        && job.handle.key().as_slice() == key_of(number).as_slice()
        && job.turn_limit == 1_000_000_000
        && are_of_the_file(&job.relations)
        && job.source.calls == 0
        && job.sink.calls == 0
}

/// The same for a job that is dropped then.
fn was_good(job: SilentJob, number: u64) -> bool {
    is_good(&job, number)
}

impl Spawner<SilentJob> for Judging {
    ghost faults = { λ s. s.faults };

    ghost started = { λ s. s.started };

    fn start(&mut self, job: SilentJob) -> Result<(), SpawnFailed> {
        let call = self.calls;
        self.calls = call.saturating_add(1);
        let is_good = was_good(job, call);
        if call == self.fails_at {
            self.faults = self.faults.saturating_add(1);
            return Err(SpawnFailed {});
        }
        self.good = self.good.saturating_add(u64::from(is_good));
        self.started += 1;
        Ok(())
    }
}

/// Another key for each connection, `most` of them.
#[derive(Drop)]
struct Keys {
    alloc: Global,
    next: u64,
    most: u64,
}

/// The key of the connection of this number, from 0.
fn key_of(number: u64) -> [u8; 4] {
    [7, 7, 7, number.to_le_bytes()[0]]
}

impl KeySource for Keys {
    fn next_key(&mut self) -> Result<SecretKey, AllocError> {
        let number = self.next;
        if number >= self.most {
            return Err(AllocError);
        }
        self.next = number.saturating_add(1);
        SecretKey::try_new(self.alloc, &key_of(number)).map_err(|_| AllocError)
    }
}

/// What the program is given: its words, who has which pid before, the calls at which no connection
/// is accepted and no job started, and how many keys there are.
type Given = (&'static str, i32, u64, u64, u64);

/// What the program works with.
#[derive(Drop)]
struct Stage {
    acceptor: Silent,
    spawner: Judging,
    keys: Keys,
}

impl Stage {
    fn new(alloc: Global, accept_fails_at: u64, start_fails_at: u64, keys: u64) -> Stage
        ensures accepted { result.acceptor.accepted ≡ 0 }
        ensures started { result.spawner.started ≡ 0 }
    {
        Stage {
            acceptor: Silent {
                fails_at: accept_fails_at,
                calls: 0,
                accepted: 0,
                faults: 0,
            },
            spawner: Judging {
                fails_at: start_fails_at,
                calls: 0,
                started: 0,
                faults: 0,
                good: 0,
            },
            keys: Keys {
                alloc,
                next: 0,
                most: keys,
            },
        }
    }
}

/// The words of a text, which stand apart by a space.
fn words_of(alloc: Global, text: &str) -> Result<PgList<PgStr>, AllocError> {
    let mut words = PgList::new(alloc);
    for word in text.split(' ') {
        words.push(PgStr::copy_of(alloc, word)?)?;
    }
    Ok(words)
}

/// The relation file, of one relation.
const FILE: &str = "shifts\t0\tspan\n1 day\n";

/// That file.
fn file(alloc: Global) -> Option<MemorySource> {
    let bytes = PgBytes::copy_of(alloc, FILE.as_bytes()).ok()?;
    let (pieces, fails) = (PgList::new(alloc), PgList::new(alloc));
    Some(MemorySource::new(bytes, pieces, fails))
}

/// Runs the program that listens, and answers its status.
fn run<R: Wait>(
    rt: &R,
    registry: &mut Registry,
    words: &[PgStr],
    file: &mut MemorySource,
    stage: &mut Stage,
    line: &mut MemorySink,
) -> Option<u8>
    requires accepted { stage.old.acceptor.accepted ≡ 0 }
    requires started { stage.old.spawner.started ≡ 0 }
{
    let manager = Arc::try_clone(&registry.manager).ok()?;
    Some(run_listen(
        rt,
        registry.alloc,
        words,
        manager,
        &mut registry.door,
        file,
        &mut stage.acceptor,
        &mut stage.spawner,
        &mut stage.keys,
        line,
    ))
}

/// Runs it with these words.
fn run_words<R: Wait>(
    rt: &R,
    registry: &mut Registry,
    words: &str,
    stage: &mut Stage,
    line: &mut MemorySink,
) -> Option<u8>
    requires accepted { stage.old.acceptor.accepted ≡ 0 }
    requires started { stage.old.spawner.started ≡ 0 }
{
    let words = words_of(registry.alloc, words).ok()?;
    let mut file = file(registry.alloc)?;
    run(rt, registry, words.as_slice(), &mut file, stage, line)
}

/// Runs it where somebody has this pid.
fn status_of<R: Wait>(
    rt: &R,
    alloc: Global,
    words: &str,
    taken: i32,
    stage: &mut Stage,
    line: &mut MemorySink,
) -> Option<u8>
    requires accepted { stage.old.acceptor.accepted ≡ 0 }
    requires started { stage.old.spawner.started ≡ 0 }
{
    let mut registry = Registry::new(alloc)?;
    if !registry.is_free(rt, taken) {
        return None;
    }
    run_words(rt, &mut registry, words, stage, line)
}

/// What a program tells: its status and its line, and how many connections were accepted and good
/// jobs started.
type Told = (u8, &'static str, u64, u64);

/// Whether this line was written, and as many connections were accepted and good jobs started as
/// told, and no other job was.
fn has(stage: &Stage, line: &MemorySink, told: &Told) -> bool {
    line.bytes() == told.1.as_bytes()
        && stage.acceptor.accepted == told.2
        && stage.spawner.started == told.3
        && stage.spawner.good == told.3
}

/// Whether the program does what it has to with what it is given.
fn is_answered<R: Wait>(rt: &R, alloc: Global, given: &Given, told: &Told) -> bool {
    let (words, taken, accept_fails_at, start_fails_at, keys) = *given;
    let mut stage = Stage::new(alloc, accept_fails_at, start_fails_at, keys);
    let mut line = MemorySink::new(alloc, PgList::new(alloc));
    let status = status_of(rt, alloc, words, taken, &mut stage, &mut line);
    let has = has(&stage, &line, told);
    status == Some(told.0) && has
}

/// The line for words that are no command.
const USAGE: &str = "usage: relation_server serve FILE PID KEY [TURNS], demo SEED N, \
    listen tcp PORT FILE [COUNT], listen unix PATH FILE [COUNT]\n";

/// Three connections over TCP.
const THREE: &str = "listen tcp 5433 f 3";

/// What is given, and what the program answers: all connections are taken in; or a call fails, a
/// pid is taken, or there is no key; or the words are refused.
const CASES: [(Given, Told); 8] = [
    ((THREE, 9, NEVER, NEVER, 9), (0, "", 3, 3)),
    (("listen unix p f 0", 9, 0, 0, 0), (0, "", 0, 0)),
    (
        ("listen tcp 5433 f", 9, 2, NEVER, 9),
        (12, "accept fault\n", 2, 2),
    ),
    ((THREE, 9, NEVER, 0, 9), (13, "spawn fault\n", 1, 0)),
    ((THREE, 9, NEVER, 2, 9), (13, "spawn fault\n", 3, 2)),
    ((THREE, 3, NEVER, NEVER, 9), (8, "pid is taken\n", 3, 2)),
    ((THREE, 9, NEVER, NEVER, 2), (7, "out of memory\n", 3, 2)),
    (("listen tcp 0 f", 9, NEVER, NEVER, 9), (2, USAGE, 0, 0)),
];

/// Whether it does in each case.
fn are_answered<R: Wait>(rt: &R, alloc: Global) -> bool {
    let mut are_so = true;
    for (given, told) in &CASES {
        are_so = are_so && is_answered(rt, alloc, given, told);
    }
    are_so
}

/// Connections are taken in, until all are or a call fails. Each job has the program's turns and
/// relations, and its own pid and key.
#[test]
fn the_program_takes_in_connections(rt: HostRuntime) {
    assert!(rt; are_answered(&rt, rt.alloc()));
}
