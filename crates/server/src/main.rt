// The program relation_server: it serves relations of intervals to clients that speak PostgreSQL's
// protocol.
#![tactic(auto)]

mod help;

use crate::help::{HELP, VERSION};
use program_io::{out_of_memory, sink_over, words_to_obey};
use relation_server::{JobThreads, ThreadSpawner, listen_place, serve_place, serve_standard};
use std::alloc::{AllocError, Global};
use std::process::ExitCode;

/// The threads of jobs, for two owners.
fn shared_threads(alloc: Global) -> Result<(JobThreads, JobThreads), AllocError> {
    let threads = JobThreads::new(alloc)?;
    let theirs = threads.share()?;
    Ok((threads, theirs))
}

fn main(rt: HostRuntime) -> ExitCode {
    let alloc = rt.alloc();
    let mut out = sink_over(rt.stdout());
    let mut err = sink_over(rt.stderr());
    let words = match words_to_obey(&rt, HELP, VERSION, &mut out, &mut err) {
        Ok(words) => words,
        Err(status) => return ExitCode::from(status),
    };
    let words = words.as_slice();
    let Some(place) = listen_place(words) else {
        return ExitCode::from(serve_standard(&rt, alloc, words, &mut out, &mut err));
    };
    let Ok((threads, theirs)) = shared_threads(alloc) else {
        return ExitCode::from(out_of_memory(&mut err));
    };
    let Ok(start) = Box::new(alloc, move |job| theirs.start(rt, job)) else {
        return ExitCode::from(out_of_memory(&mut err));
    };
    let mut spawner = ThreadSpawner::new(threads, start);
    let status = serve_place(rt, alloc, words, place, &mut spawner, &mut err);
    spawner.threads.finish(&rt);
    ExitCode::from(status)
}
