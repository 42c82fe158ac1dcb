//! A conversation is served.

use crate::counting::CountingSink;
use crate::script::{Step, key_of};
use pg_messages::{PgBytes, PgList};
use pg_serve::{FlakyDesk, MemorySink, MemorySource};
use pg_session::{EndKind, ServeError};
use row_files::{Fault, numbers_of, singles, told, up_to_one};
use std::alloc::{AllocError, Global};

/// How a row is served: the bytes of each read, the calls of source, sink (with the bytes that a
/// failing write takes) and desk that fail, and the turns.
#[derive(Clone, Copy)]
pub struct Plan<'t> {
    pub reads: Reads<'t>,
    pub source_fails: Option<u64>,
    pub sink_fails: Option<(u64, usize)>,
    pub desk_fails: Option<u64>,
    pub turns: u64,
}

/// How many bytes each read gives.
#[derive(Clone, Copy)]
pub enum Reads<'t> {
    /// The numbers of a line; past them as many as fit.
    Told(&'t str),
    /// This many at first, and then as many as fit.
    First(usize),
    /// One at a time.
    Single,
    /// Those of one message. A message that has more than this many bytes is cut behind them.
    Messages(usize),
}

/// How a conversation ends.
pub type Ending = Result<EndKind, ServeError>;

/// Where a client's bytes come from and the replies go, and the registry.
#[derive(Drop)]
pub struct Place {
    pub source: MemorySource,
    pub sink: CountingSink,
    pub desk: FlakyDesk,
}

/// The client's bytes, a sink and a registry as the plan and the lines have them. The steps tell
/// where the messages end.
pub fn place_of<'t>(
    alloc: Global,
    lines: &[&'t str],
    steps: &[Step],
    client: &[u8],
    plan: Plan<'t>,
) -> Result<Place, Fault<'t>> {
    let desk = desk_of(alloc, lines, plan.desk_fails)?;
    let sink = sink_of(alloc, plan.sink_fails)?;
    let source = source_of(alloc, steps, client, plan)?;
    Ok(Place { source, sink, desk })
}

/// The registry, with the key and the answers that the lines tell.
fn desk_of<'t>(
    alloc: Global,
    lines: &[&'t str],
    fails: Option<u64>,
) -> Result<FlakyDesk, Fault<'t>> {
    let key = key_of(alloc, told(lines, "key").unwrap_or("01020304"))?;
    let answers = answers_of(alloc, told(lines, "answers").unwrap_or(""))?;
    let fails = PgList::from_vec(up_to_one(alloc, fails)?);
    Ok(FlakyDesk::new(alloc, 7, key, answers, fails))
}

/// The answers that words tell.
fn answers_of(alloc: Global, words: &str) -> Result<PgList<bool>, AllocError> {
    let mut answers = PgList::new(alloc);
    for word in words.split_whitespace() {
        answers.push(word == "yes")?;
    }
    Ok(answers)
}

fn sink_of(alloc: Global, fails: Option<(u64, usize)>) -> Result<CountingSink, AllocError> {
    let fails = PgList::from_vec(up_to_one(alloc, fails)?);
    Ok(CountingSink {
        sink: MemorySink::new(alloc, fails),
        lengths: Vec::new(alloc),
        refused: 0,
    })
}

fn source_of<'t>(
    alloc: Global,
    steps: &[Step],
    client: &[u8],
    plan: Plan<'t>,
) -> Result<MemorySource, Fault<'t>> {
    let pieces = PgList::from_vec(pieces_of(alloc, plan.reads, steps, client.len())?);
    Ok(source_with(alloc, client, pieces, plan.source_fails)?)
}

fn source_with(
    alloc: Global,
    client: &[u8],
    pieces: PgList<usize>,
    fails: Option<u64>,
) -> Result<MemorySource, AllocError> {
    let fails = PgList::from_vec(up_to_one(alloc, fails)?);
    Ok(MemorySource::new(PgBytes::copy_of(alloc, client)?, pieces, fails))
}

fn pieces_of<'t>(
    alloc: Global,
    reads: Reads<'t>,
    steps: &[Step],
    len: usize,
) -> Result<Vec<usize>, Fault<'t>> {
    match reads {
        Reads::Told(words) => numbers_of(alloc, words),
        _ => Ok(pieces_made(alloc, reads, steps, len)?),
    }
}

/// The pieces that no line tells by their numbers.
fn pieces_made(
    alloc: Global,
    reads: Reads<'_>,
    steps: &[Step],
    len: usize,
) -> Result<Vec<usize>, AllocError> {
    match reads {
        Reads::First(first) => up_to_one(alloc, Some(first)),
        Reads::Messages(front) => pieces_of_messages(alloc, steps, front),
        _ => singles(alloc, len),
    }
}

/// The pieces of each message.
fn pieces_of_messages(
    alloc: Global,
    steps: &[Step],
    front: usize,
) -> Result<Vec<usize>, AllocError> {
    let mut pieces = Vec::new(alloc);
    for step in steps {
        if let Step::Client(len) = *step {
            push_message(&mut pieces, len, front)?;
        }
    }
    Ok(pieces)
}

/// Appends the pieces of a message of this length.
fn push_message(pieces: &mut Vec<usize>, len: usize, front: usize) -> Result<(), AllocError> {
    let front = if front < len { front } else { 0 };
    if front > 0 {
        pieces.push(front)?;
    }
    Ok(pieces.push(len.saturating_sub(front))?)
}
