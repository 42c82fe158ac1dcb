//! Jobs that run on threads of their own.

ghost use Rattle.std.specs.Prelude.{◌≡◌, ◌≤◌, ◌+◌, ◌++◌, ◌∷◌, [], true, false, None, length, option_to_list, IfSome, IfNone};
ghost use Rattle.std.proofs.Props.{props};
ghost use Rattle.job_threads.specs.declared.job.Ended.{Ended};

use crate::job::{Ended, ThreadJob};
use crate::limits::{IDLE, MOST_IDLE, PAUSE, STACK, TRIES};
use std::alloc::{AllocError, Global};
use std::snapshot::Snapshot;
use std::sync::{Arc, Condvar, CondvarTimeouts, Mutex, Wait};
use std::thread::{Builder, Promise, Threads};
use std::time::{Clock, Duration};

/// The threads whose jobs have ended, and that wait for another one. A job lies here only for one
/// of them.
#[derive(Drop)]
struct Waiting<J> {
    threads: usize,
    /// The bytes of the stack that each of them has.
    stack: usize,
    /// The jobs that were given to some of them.
    given: Vec<J>,
    ghost served: { length given.items ≤ threads } by { Prim.hlevel props },
}

/// How many jobs run, and how many have ended, wrapping; and who waits for a job.
#[derive(Drop)]
struct Count<J> {
    running: u64,
    ended: u64,
    waiting: Waiting<J>,
}

impl<J: Drop> Waiting<J> {
    /// Gives a job to a thread that waits for one, if one does that has so large a stack. Else it
    /// hands the job back.
    fn give(&mut self, stack: usize, job: J) -> Option<J>
        ensures given { IfNone result ((self.old.stack ≡ stack)
            × (self.new.given.items ≡ self.old.given.items ++ job ∷ [])) }
        ensures back { IfSome result (λ back. (back ≡ job)
            × (self.new.given.items ≡ self.old.given.items)) }
        ensures threads { self.new.threads ≡ self.old.threads }
    {
        if self.stack != stack || self.given.len() >= self.threads {
            return Some(job);
        }
        match self.given.push(job) {
            Ok(()) => None,
            Err(refused) => Some(refused.value),
        }
    }

    /// One more thread waits, which has so large a stack, where fewer wait than may and where none
    /// waits that has another stack. It answers whether it is to wait.
    fn join(&mut self, stack: usize) -> bool
        ensures waits { result ≡ true → (self.new.threads ≡ self.old.threads + 1)
            × (self.new.stack ≡ stack) }
        ensures goes { result ≡ false → self.new.threads ≡ self.old.threads }
        ensures given { self.new.given.items ≡ self.old.given.items }
    {
        if self.threads >= MOST_IDLE || (self.threads > 0 && self.stack != stack) {
            return false;
        }
        self.threads += 1;
        self.stack = stack;
        true
    }

    /// A thread that waited goes on: with a job that was given, or without one where none is left.
    fn go_on(&mut self) -> Option<J>
        ensures taken { self.old.given.items ≡ self.new.given.items ++ option_to_list result }
        ensures none { result ≡ None → self.old.given.items ≡ [] }
    {
        let job = self.given.pop();
        self.threads = self.threads.saturating_sub(1);
        job
    }
}

/// The count of jobs, and who waits until it changes.
#[derive(Drop)]
struct Running<J> {
    jobs: Mutex<Count<J>>,
    changed: Condvar,
    given: Condvar,
}

impl<J: Drop> Running<J> {
    /// One job more runs. It answers how many have ended.
    fn enter<R: Wait>(&self, rt: &R) -> u64 {
        let mut jobs = self.jobs.lock(rt);
        jobs.running = jobs.running.saturating_add(1);
        jobs.ended
    }

    /// Gives a job to a thread that waits for one, if one does that has so large a stack.
    fn give<R: Wait>(&self, rt: &R, stack: usize, job: J) -> Option<J>
        ensures { IfSome result (λ back. back ≡ job) }
    {
        let mut jobs = self.jobs.lock(rt);
        let back = jobs.waiting.give(stack, job);
        if back.is_none() {
            jobs.running = jobs.running.saturating_add(1);
            self.given.notify_one();
        }
        back
    }

    /// A job has ended. It answers the next one of its thread, which waits a while for it where few
    /// other threads do.
    fn leave<R: Wait + Clock>(&self, rt: &R, stack: usize) -> Option<J> {
        let mut jobs = self.jobs.lock(rt);
        jobs.running = jobs.running.saturating_sub(1);
        jobs.ended = jobs.ended.wrapping_add(1);
        self.changed.notify_all();
        if !jobs.waiting.join(stack) {
            return None;
        }
        let (mut jobs, _timed_out) = self
            .given
            .wait_timeout_while(rt, jobs, Duration::from_millis(IDLE), |jobs| {
                jobs.waiting.given.is_empty()
            });
        jobs.waiting.go_on()
    }

    /// A job didn't come to run.
    fn withdraw<R: Wait>(&self, rt: &R) {
        let mut jobs = self.jobs.lock(rt);
        jobs.running = jobs.running.saturating_sub(1);
        self.changed.notify_all();
    }

    /// Waits until another number of jobs has ended than this, or none runs. It answers whether one
    /// has ended.
    fn wait_for_end<R: Wait>(&self, rt: &R, ended: u64) -> bool {
        let jobs = self.changed.wait_while(rt, self.jobs.lock(rt), |jobs| {
            jobs.running > 0 && jobs.ended == ended
        });
        jobs.ended != ended
    }

    /// Waits until no job runs.
    fn wait<R: Wait>(&self, rt: &R) {
        let _none = self
            .changed
            .wait_while(rt, self.jobs.lock(rt), |jobs| jobs.running > 0);
    }
}

/// What came of starting a job.
#[derive(Clone, Copy, Debug, PartialEq, Eq)]
pub struct Tries {
    /// Whether it was started. Where it wasn't, it was dropped.
    pub is_started: bool,
    /// How many tries failed.
    pub failed: u64,
}

/// Jobs that run beside each other, each on a thread of its own. They are counted.
#[derive(Drop)]
pub struct JobThreads<J> {
    alloc: Global,
    stack: usize,
    running: Arc<Running<J>>,
}

impl<J: Drop> JobThreads<J> {
    /// No job runs yet. A thread has 512 KiB of stack.
    pub fn new(alloc: Global) -> Result<JobThreads<J>, AllocError> {
        let count = Count {
            running: 0,
            ended: 0,
            waiting: Waiting {
                threads: 0,
                stack: STACK,
                given: Vec::with_capacity(alloc, MOST_IDLE)?,
            },
        };
        let jobs = Mutex::new(count);
        let changed = Condvar::new();
        let given = Condvar::new();
        let running = Arc::new(
            alloc,
            Running {
                jobs,
                changed,
                given,
            },
        )?;
        Ok(JobThreads {
            alloc,
            stack: STACK,
            running,
        })
    }

    /// The same threads, for another owner.
    pub fn share(&self) -> Result<JobThreads<J>, AllocError> {
        self.share_with_stack(self.stack)
    }

    /// The same threads, for another owner, whose threads have so many bytes of stack. With more
    /// than there can be, no thread can be started.
    pub fn share_with_stack(&self, stack: usize) -> Result<JobThreads<J>, AllocError> {
        Ok(JobThreads {
            alloc: self.alloc,
            stack,
            running: Arc::try_clone(&self.running)?,
        })
    }

    /// Waits until each job that was started has ended: it was run to its end, and what was left of
    /// it was dropped. It waits for as long as a job runs. A thread that waits for another job is
    /// not waited for.
    pub fn finish<R: Wait>(&self, rt: &R) {
        self.running.wait(rt);
    }
}

impl<J: ThreadJob + Send + 'static> JobThreads<J> {
    /// Starts a thread that runs a job, and doesn't wait for it. Where no thread can be made, it
    /// waits until one of the jobs that run has ended and tries again. Where none runs, it tries
    /// again every 100 milliseconds, and drops the job behind the fifth such try in turn that
    /// fails. The answer tells how many tries failed, and whether the job was dropped.
    ///
    /// A job that has ended leaves nothing behind: what it had is dropped on its thread. That waits
    /// 50 milliseconds for another job with the same stack, where fewer than eight threads wait so,
    /// and then ends. Nobody joins it.
    pub fn start<R: Threads + Wait + Clock + Copy + Send + 'static>(&self, rt: R, job: J) -> Tries {
        let Some(job) = self.running.give(&rt, self.stack, job) else {
            return Tries {
                is_started: true,
                failed: 0,
            };
        };
        let alloc = self.alloc;
        let stack = self.stack;
        let same = Snapshot::of(&job);
        match Arc::try_clone(&self.running) {
            Ok(running) => self.start_thread(
                &rt,
                &same,
                move || -> Ended
                    ensures { J.has_run job result }
                { run_jobs(&rt, alloc, &running, stack, job) },
            ),
            Err(AllocError) => Tries {
                is_started: false,
                failed: 1,
            },
        }
    }

    /// Starts a job that was made, as [`JobThreads::start`] does. One that found no memory is not
    /// started, and counts as a try that failed.
    pub fn start_made<R: Threads + Wait + Clock + Copy + Send + 'static>(
        &self,
        rt: R,
        job: Result<J, AllocError>,
    ) -> Tries {
        match job {
            Ok(job) => self.start(rt, job),
            Err(AllocError) => Tries {
                is_started: false,
                failed: 1,
            },
        }
    }

    /// Starts a thread that does this, which runs the job of the promise.
    fn start_thread<R: Threads + Wait + Clock, F: FnOnce() -> Ended + Send + Drop + 'static>(
        &self,
        rt: &R,
        same: &Snapshot<J>,
        work: F,
    ) -> Tries
        requires pre { F.pre work }
        requires runs { (ended : Ended) → F.post work ended → J.has_run same.now.value ended }
    {
        let mut work = work;
        let mut failed = 0u64;
        let mut alone = 0u64;
        for _ in rt.forever() {
            let ended = self.running.enter(rt);
            let promise = IsRun {
                job: Snapshot::of(same),
            };
            let thread = Builder::new().stack_size(self.stack);
            match thread.spawn_with(rt, promise, work) {
                Ok(_apart) => {
                    return Tries {
                        is_started: true,
                        failed,
                    };
                }
                Err(refused) => work = refused.value,
            }
            failed = failed.saturating_add(1);
            self.running.withdraw(rt);
            let has_ended = self.running.wait_for_end(rt, ended);
            alone = if has_ended {
                0
            } else {
                alone.saturating_add(1)
            };
            if alone >= TRIES {
                break;
            }
            rt.sleep(Duration::from_millis(PAUSE));
        }
        Tries {
            is_started: false,
            failed,
        }
    }
}

/// A thread promises that it runs this job to its end.
#[derive(Drop)]
struct IsRun<J> {
    job: Snapshot<Snapshot<J>>,
}

impl<J: ThreadJob> Promise<Ended> for IsRun<J> {
    ghost kept_by = { λ promise ended. J.has_run promise.job.value.value ended };
}

/// Runs a job to its end, and tells that it has ended; then the next ones that its thread is given.
fn run_jobs<R: Wait + Clock, J: ThreadJob>(
    rt: &R,
    alloc: Global,
    running: &Running<J>,
    stack: usize,
    job: J,
) -> Ended
    ensures { J.has_run job result }
{
    let ended = job.run_whole(rt, alloc);
    run_given(rt, alloc, running, stack);
    ended
}

/// Runs the jobs that a thread is given behind its first.
fn run_given<R: Wait + Clock, J: ThreadJob>(
    rt: &R,
    alloc: Global,
    running: &Running<J>,
    stack: usize,
) {
    for _ in rt.forever() {
        let Some(next) = running.leave(rt, stack) else {
            return;
        };
        let _ended = next.run_whole(rt, alloc);
    }
}
