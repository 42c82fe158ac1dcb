//! A job that a thread runs.

ghost use Rattle.job_threads.specs.declared.job.Ended.{Ended};

use pg_streams::Job;
use std::alloc::Global;
use std::sync::Wait;

/// A job was run to its end. Nothing is left of it: it has no bytes.
#[derive(Clone, Copy, Debug, PartialEq, Eq)]
pub struct Ended {}

/// A job that a thread runs to its end.
pub trait ThreadJob: Job {
    // it was run to its end
    ghost has_run: { Self → Ended → Type 0 };

    /// Runs the job, and drops what is left of it. It has no error: what the service came to is for
    /// nobody.
    fn run_whole<R: Wait>(self, rt: &R, alloc: Global) -> Ended
        ensures { has_run self result };
}
