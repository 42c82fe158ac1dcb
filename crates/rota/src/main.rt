// The program rota_report: it tells the moments of a rota, its total, and its clashes with another.
#![tactic(auto)]

mod help;

use crate::help::{HELP, VERSION};
use conversation_runs::Sink;
use program_io::{open_file, sink_over, words_to_obey};
use rota_report::run_rota;
use rota_words::file_word;
use std::env::Env;
use std::fs::Files;
use std::process::ExitCode;

/// Does what the words of the command line order, and answers the exit status.
fn obey<R: Env + AllocGlobal + Files, K: Sink, E: Sink>(rt: &R, out: &mut K, err: &mut E) -> u8 {
    let words = match words_to_obey(rt, HELP, VERSION, out, err) {
        Ok(words) => words,
        Err(status) => return status,
    };
    let words = words.as_slice();
    let alloc = rt.alloc();
    let mut file = open_file(rt, file_word(alloc, words));
    run_rota(alloc, words, &mut file, out, err)
}

fn main(rt: HostRuntime) -> ExitCode {
    let mut out = sink_over(rt.stdout());
    let mut err = sink_over(rt.stderr());
    ExitCode::from(obey(&rt, &mut out, &mut err))
}
