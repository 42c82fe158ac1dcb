// The program pg_cursor: it serves relations of intervals, with cursors in simple queries, to one
// client or to many at once.
#![tactic(auto)]

mod help;

use crate::help::{HELP, VERSION};
use client_listening::{ClientSpawner, ServiceThreads, TURNS, listen_at};
use cursor_serving::CursorService;
use pg_cursor::run_cursors;
use pg_messages::PgStr;
use program_io::{open_file, out_of_memory, sink_over, standard_input, words_to_obey};
use relation_listening::{report_listened, shared_relations};
use relation_words::{ListenPlace, file_word, listen_count, listen_place};
use std::process::ExitCode;

/// Where the words order to listen, and for how many clients, where there is a bound.
fn listen_words<'a>(words: &'a [PgStr]) -> Option<(ListenPlace<'a>, Option<u64>)> {
    Some((listen_place(words)?, listen_count(words)?))
}

fn main(rt: HostRuntime) -> ExitCode {
    let alloc = rt.alloc();
    let mut out = sink_over(rt.stdout());
    let mut err = sink_over(rt.stderr());
    let words = match words_to_obey(&rt, HELP, VERSION, &mut out, &mut err) {
        Ok(words) => words,
        Err(status) => return ExitCode::from(status),
    };
    let words = words.as_slice();
    let mut file = open_file(&rt, file_word(words));
    let Some((place, count)) = listen_words(words) else {
        let mut client = standard_input(&rt);
        let status = run_cursors(alloc, words, &mut file, &mut client, &mut out, &mut err);
        return ExitCode::from(status);
    };
    let relations = match shared_relations(alloc, &mut file, &mut err) {
        Ok(relations) => relations,
        Err(status) => return ExitCode::from(status),
    };
    let Ok((server, jobs)) = ServiceThreads::for_two(alloc, CursorService { relations }) else {
        return ExitCode::from(out_of_memory(&mut err));
    };
    let Ok(start) = Box::new(
        alloc,
        move |client| jobs.threads.start_made(rt, jobs.job_of(client)),
    ) else {
        return ExitCode::from(out_of_memory(&mut err));
    };
    let threads = ClientSpawner::new(server.threads, start);
    let answer = listen_at(rt, place, count, TURNS, threads);
    ExitCode::from(report_listened(answer, &mut err))
}
