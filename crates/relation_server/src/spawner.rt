//! Jobs that run on threads of their own.

ghost use Rattle.std.specs.Prelude.{◌≡◌};

use crate::connection_job::ConnectionJob;
use conversation_runs::{Sink, Source};
use job_threads::{Ended, ThreadJob, Tries};
use pg_cancel::ConnectionManager;
use pg_serve::{MaybeTls, SpawnFailed, Spawner};
use relation_handlers::RelationTable;
use std::alloc::Global;
use std::sync::Wait;

/// The threads of jobs over sockets. Each job that was started has ended where its client was
/// served and, but where memory ran out, its registration given back.
pub type JobThreads = job_threads::JobThreads<ConnectionJob<MaybeTls, MaybeTls>>;

impl<S: Source + Drop, K: Sink + Drop> ThreadJob for ConnectionJob<S, K> {
    ghost use Rattle.std.specs.Arc.{arc_value};
    ghost use Rattle.pg_engine.specs.Serving.{counts_of};
    ghost use Rattle.relation_server.specs.Running.{HasRun};

    ghost has_run = { λ job _. HasRun job.handle (arc_value job.relations) job.turn_limit
        (S.left job.source) (K.written job.sink)
        (counts_of S.reads S.faults K.faults job.source job.sink) };

    /// Serves the connection and ends its registration, as [`ConnectionJob::run`] does. Its source
    /// and sink are dropped.
    fn run_whole<R: Wait>(self, rt: &R, alloc: Global) -> Ended {
        drop(self.run(rt, alloc));
        Ended {}
    }
}

/// How a job is started.
pub type StartJob = Box<dyn Fn(ConnectionJob<MaybeTls, MaybeTls>) -> Tries + Drop>;

/// A spawner of jobs over sockets. Its maker chooses how it starts one: by [`JobThreads::start`],
/// for example, which needs a runtime that may start threads. Each try that failed is counted, also
/// those of a job that was started in the end. It keeps the threads, so that its owner can wait for
/// them.
#[derive(Drop)]
pub struct ThreadSpawner<T> {
    /// The threads.
    pub threads: T,
    start: StartJob,
    started: u64,
    faults: u64,
    ghost ready: { IsAlwaysCallable start },
}

impl<T> ThreadSpawner<T> {
    /// A spawner that has started no job yet.
    pub fn new(threads: T, start: StartJob) -> ThreadSpawner<T>
        requires ready { IsAlwaysCallable start }
        ensures unused { (result.started ≡ 0) × (result.faults ≡ 0) }
    {
        ThreadSpawner {
            threads,
            start,
            started: 0,
            faults: 0,
        }
    }

    /// How many tries to start a job failed. The count stands still at the greatest `u64`.
    pub fn faults(&self) -> u64
        ensures { result ≡ self.now.faults }
    {
        self.faults
    }
}

impl<T> Spawner<ConnectionJob<MaybeTls, MaybeTls>> for ThreadSpawner<T> {
    ghost faults = { λ s. s.faults };

    ghost started = { λ s. s.started };

    fn start(&mut self, job: ConnectionJob<MaybeTls, MaybeTls>) -> Result<(), SpawnFailed> {
        let tries = (self.start)(job);
        self.faults = self.faults.saturating_add(tries.failed);
        if tries.is_started {
            self.started += 1;
            Ok(())
        } else {
            self.faults = self.faults.saturating_add(u64::from(tries.failed == 0));
            Err(SpawnFailed {})
        }
    }
}

fn may_be_sent<T: Send>() {}

fn may_be_shared<T: Send + Sync>() {}

/// Shows, since it compiles, that threads may share a registry and relations, and that the job of a
/// connection may be sent to another thread. It does nothing.
pub fn jobs_cross_threads() {
    may_be_shared::<ConnectionManager>();
    may_be_shared::<RelationTable>();
    may_be_sent::<MaybeTls>();
    may_be_sent::<ConnectionJob<MaybeTls, MaybeTls>>();
}
