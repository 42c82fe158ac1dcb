//! The programs that rows run.

use pg_cursor::run_cursors;
use pg_messages::PgStr;
use pg_replay::run_replay;
use pg_streams::{MemorySink, MemorySource};
use rota_report::run_rota;
use row_files::Fault;
use std::alloc::Global;

/// A program that a row runs.
#[derive(Clone, Copy)]
pub enum Program {
    /// rota_report, which reads only a relation file.
    Rota,
    /// pg_replay, which reads an input too.
    Replay,
    /// pg_cursor, which reads an input too.
    Cursor,
}

/// The program of this name.
pub fn program_of<'t>(name: &'t str) -> Result<Program, Fault<'t>> {
    match name {
        "rota" => Ok(Program::Rota),
        "replay" => Ok(Program::Replay),
        "cursor" => Ok(Program::Cursor),
        _ => Err(Fault::Line(name)),
    }
}

impl Program {
    /// Runs the program, and answers its status.
    pub fn run(
        self,
        alloc: Global,
        words: &[PgStr],
        file: &mut MemorySource,
        input: &mut MemorySource,
        out: &mut MemorySink,
        err: &mut MemorySink,
    ) -> u8 {
        match self {
            Program::Rota => run_rota(alloc, words, file, out, err),
            Program::Replay => run_replay(alloc, words, file, input, out, err),
            Program::Cursor => run_cursors(alloc, words, file, input, out, err),
        }
    }
}
