//! The conversation of a row is served.

use crate::row::Row;
use crate::verdict::{Difference, first_difference};
use conversation_runs::ServeError;
use pg_client::{EndKind, ScriptDesk};
use pg_messages::{PgBytes, PgList, SecretKey};
use pg_streams::{MemorySink, MemorySource};
use row_files::{Fault, numbers_of, parsed, singles, up_to_one};
use std::alloc::{AllocError, Global};

/// How a conversation ends.
pub type Ending = Result<EndKind, ServeError>;

/// Who serves a client with cursors.
pub trait Serving: Drop {
    /// Serves a client that has `turns` turns, with the registry's answers that the desk has.
    fn serve<'t>(
        &self,
        alloc: Global,
        desk: &mut ScriptDesk,
        source: &mut MemorySource,
        sink: &mut MemorySink,
        turns: u64,
    ) -> Result<Ending, Fault<'t>>;
}

/// The first difference between what a row expects and what came of it, where its reads give these
/// numbers of bytes.
pub fn judge_one<'t, S: Serving>(
    alloc: Global,
    serving: &S,
    row: &Row<'t>,
    pieces: Vec<usize>,
) -> Result<Option<Difference>, Fault<'t>> {
    let mut source = source_of(alloc, row, pieces)?;
    judge_from(alloc, serving, row, &mut source)
}

fn judge_from<'t, S: Serving>(
    alloc: Global,
    serving: &S,
    row: &Row<'t>,
    source: &mut MemorySource,
) -> Result<Option<Difference>, Fault<'t>> {
    let mut sink = sink_of(alloc, row)?;
    judge_into(alloc, serving, row, source, &mut sink)
}

/// Serves a client with the registry's answers that the row tells.
fn judge_into<'t, S: Serving>(
    alloc: Global,
    serving: &S,
    row: &Row<'t>,
    source: &mut MemorySource,
    sink: &mut MemorySink,
) -> Result<Option<Difference>, Fault<'t>> {
    let turns = turns_of(row)?;
    let mut desk = desk_of(alloc, row.option("answers").unwrap_or(""))?;
    let end = serving.serve(alloc, &mut desk, source, sink, turns)?;
    Ok(first_difference(row, end, sink.bytes(), desk.calls()))
}

/// What each read gives, as the row tells.
pub fn pieces_told<'t>(alloc: Global, row: &Row<'t>) -> Result<Vec<usize>, Fault<'t>> {
    match row.option("reads") {
        Some("single") => Ok(singles(alloc, row.client.len())?),
        Some(words) => numbers_of(alloc, words),
        None => Ok(Vec::new(alloc)),
    }
}

/// The client's bytes, in these pieces, with the read that fails.
fn source_of<'t>(
    alloc: Global,
    row: &Row<'t>,
    pieces: Vec<usize>,
) -> Result<MemorySource, Fault<'t>> {
    let fails = number_of(row, "read_fails")?;
    Ok(source_with(alloc, row.client.as_slice(), pieces, fails)?)
}

fn source_with(
    alloc: Global,
    client: &[u8],
    pieces: Vec<usize>,
    fails: Option<u64>,
) -> Result<MemorySource, AllocError> {
    let fails = PgList::from_vec(up_to_one(alloc, fails)?);
    let pieces = PgList::from_vec(pieces);
    Ok(MemorySource::new(PgBytes::copy_of(alloc, client)?, pieces, fails))
}

/// The sink, with the write that fails.
fn sink_of<'t>(alloc: Global, row: &Row<'t>) -> Result<MemorySink, Fault<'t>> {
    let fails = up_to_one(alloc, failing_write(row)?)?;
    Ok(MemorySink::new(alloc, PgList::from_vec(fails)))
}

/// The number of the write that fails, and how many bytes it takes.
fn failing_write<'t>(row: &Row<'t>) -> Result<Option<(u64, usize)>, Fault<'t>> {
    let Some(words) = row.option("write_fails") else {
        return Ok(None);
    };
    let (call, taken) = words.split_once(" ").unwrap_or((words, ""));
    let call = parsed::<u64>(call)?;
    Ok(Some((call, parsed::<usize>(taken)?)))
}

/// The number that an option tells, if there is one.
fn number_of<'t>(row: &Row<'t>, name: &str) -> Result<Option<u64>, Fault<'t>> {
    match row.option(name) {
        None => Ok(None),
        Some(digits) => Ok(Some(parsed::<u64>(digits)?)),
    }
}

/// How many turns the client has.
fn turns_of<'t>(row: &Row<'t>) -> Result<u64, Fault<'t>> {
    Ok(number_of(row, "turns")?.unwrap_or(1000))
}

/// The registry, under pid 7 and key 01020304, with the answers that words tell.
fn desk_of<'t>(alloc: Global, words: &str) -> Result<ScriptDesk, Fault<'t>> {
    let Ok(key) = SecretKey::try_new(alloc, &[1, 2, 3, 4]) else {
        return Err(Fault::NoMemory);
    };
    let mut answers = PgList::new(alloc);
    for word in words.split_whitespace() {
        answers.push(word == "yes")?;
    }
    Ok(ScriptDesk::new(alloc, 7, key, answers))
}
