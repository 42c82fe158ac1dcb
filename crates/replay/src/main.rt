// The program pg_replay: it records clients that are served over relations of intervals, and verifies
// recordings.
#![tactic(auto)]

ghost use Rattle.std.specs.Prelude.{◌≡◌, IfOk};
ghost use Rattle.std.specs.Arc.{arc_value};

mod help;

use crate::help::{HELP, VERSION};
use client_listening::{ClientSpawner, ServiceThreads, TURNS, listen_at};
use conversation_runs::Sink;
use pg_messages::PgStr;
use pg_replay::{file_word, read_listening, run_replay};
use program_io::{open_file, out_of_memory, sink_over, standard_input, words_to_obey};
use recorded_clients::{FolderKeeper, Keeper, RecordedService};
use relation_handlers::RelationTable;
use relation_listening::{SharedRelations, report_listened, shared_relations};
use std::alloc::AllocError;
use std::fs::Files;
use std::io::{Eprint, Input};
use std::process::ExitCode;
use std::sync::Arc;

/// How many bytes of a client, and of the replies, a recording has room for while the program listens.
const ROOM: usize = 16_777_216;

/// Relations whose clients are recorded, and the threads on which they are served.
type RecordedServer<R> = ServiceThreads<RecordedService<SharedRelations, FolderKeeper<R>>>;

/// Does what words order that order no listening, and answers the exit status.
fn obey<R: AllocGlobal + Files + Input, K: Sink, E: Sink>(
    rt: &R,
    words: &[PgStr],
    out: &mut K,
    err: &mut E,
) -> u8 {
    let mut file = open_file(rt, file_word(words));
    let mut client = standard_input(rt);
    run_replay(rt.alloc(), words, &mut file, &mut client, out, err)
}

/// The relations of a file, for clients to share, or the exit status where they can't be read.
fn read_shared<R: AllocGlobal + Files, E: Sink>(
    rt: &R,
    file: &str,
    err: &mut E,
) -> Result<Arc<RelationTable>, u8> {
    let mut file = open_file(rt, Some(file));
    shared_relations(rt.alloc(), &mut file, err)
}

/// A server of these relations for two owners, whose clients are recorded in a folder; and the keeper
/// of the recordings.
fn recorded_server<R: Files + Eprint + AllocGlobal + Copy + Drop>(
    rt: R,
    relations: Arc<RelationTable>,
    folder: &str,
) -> Result<(RecordedServer<R>, RecordedServer<R>, FolderKeeper<R>), AllocError>
    ensures first { IfOk result (λ made.
        arc_value made.0.service.inner.relations ≡ arc_value relations) }
    ensures second { IfOk result (λ made.
        arc_value made.1.service.inner.relations ≡ arc_value relations) }
{
    let keeper = FolderKeeper::new(rt.alloc(), rt, folder)?;
    let service = RecordedService {
        inner: SharedRelations { relations },
        keeper: keeper.share()?,
        room: ROOM,
    };
    let (server, jobs) = ServiceThreads::for_two(rt.alloc(), service)?;
    Ok((server, jobs, keeper))
}

fn main(rt: HostRuntime) -> ExitCode {
    let mut out = sink_over(rt.stdout());
    let mut err = sink_over(rt.stderr());
    let words = match words_to_obey(&rt, HELP, VERSION, &mut out, &mut err) {
        Ok(words) => words,
        Err(status) => return ExitCode::from(status),
    };
    let words = words.as_slice();
    let Some(listening) = read_listening(words) else {
        return ExitCode::from(obey(&rt, words, &mut out, &mut err));
    };
    let relations = match read_shared(&rt, listening.file, &mut err) {
        Ok(relations) => relations,
        Err(status) => return ExitCode::from(status),
    };
    let Ok((server, jobs, keeper)) = recorded_server(rt, relations, listening.folder) else {
        return ExitCode::from(out_of_memory(&mut err));
    };
    let Ok(start) = Box::new(
        rt.alloc(),
        move |client| jobs.threads.start_made(rt, jobs.job_of(client)),
    ) else {
        return ExitCode::from(out_of_memory(&mut err));
    };
    let threads = ClientSpawner::new(server.threads, start);
    let answer = listen_at(rt, listening.place, listening.count, TURNS, threads);
    let status = report_listened(answer, &mut err);
    ExitCode::from(if status == 0 { keeper.status() } else { status })
}
