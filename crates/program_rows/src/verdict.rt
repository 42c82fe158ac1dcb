//! What differs from what a row expects.

use crate::WORDS;
use crate::command::run_told;
use crate::given::message_bytes;
use crate::place::Place;
use crate::sink::{RowSink, Sinks, sinks_of};
use row_files::{Fault, common_len, lines_of, number_told, told, told_by, unescaped};
use std::alloc::{AllocError, Global};
use std::sync::Wait;

/// Runs the commands of a row, up to the first that differs from what it expects, and writes what
/// differs.
pub fn judge_commands<'t, R: Wait>(
    rt: &R,
    alloc: Global,
    text: &'t str,
    block: &'t str,
    lines: &[&'t str],
    found: &mut String,
) -> Result<(), Fault<'t>> {
    let mut place = Place::new(alloc)?;
    judge_at(rt, alloc, &mut place, text, block, lines, found)
}

fn judge_at<'t, R: Wait>(
    rt: &R,
    alloc: Global,
    place: &mut Place,
    text: &'t str,
    block: &'t str,
    lines: &[&'t str],
    found: &mut String,
) -> Result<(), Fault<'t>> {
    occupy(rt, place, lines)?;
    for part in block.split("\nwords ").skip(1) {
        if found.is_empty() {
            judge_part(rt, alloc, place, text, part, found)?;
        }
    }
    judge_registry(rt, place, lines, found)
}

/// Registers the pids that are live before the commands.
fn occupy<'t, R: Wait>(rt: &R, place: &mut Place, lines: &[&'t str]) -> Result<(), Fault<'t>> {
    for line in lines {
        if let Some(pid) = told_by(line, "live") {
            place.occupy(rt, pid)?;
        }
    }
    Ok(())
}

/// Runs a command, whose words stand in the first line, and writes what differs from what the
/// further lines expect.
fn judge_part<'t, R: Wait>(
    rt: &R,
    alloc: Global,
    place: &mut Place,
    text: &'t str,
    part: &'t str,
    found: &mut String,
) -> Result<(), Fault<'t>> {
    let (words, own) = part.split_once("\n").unwrap_or((part, ""));
    let lines = lines_of(alloc, text, own, &WORDS)?;
    judge_command(rt, alloc, place, words, text, lines.as_slice(), found)
}

/// Runs the words, and writes what differs from what the lines expect.
fn judge_command<'t, R: Wait>(
    rt: &R,
    alloc: Global,
    place: &mut Place,
    words: &'t str,
    text: &'t str,
    lines: &[&'t str],
    found: &mut String,
) -> Result<(), Fault<'t>> {
    let mut sinks = sinks_of(alloc, lines)?;
    let (status, is_noted) = run_told(rt, alloc, place, words, text, lines, &mut sinks)?;
    judge_answer(alloc, words, text, lines, status, is_noted, &sinks, found)
}

/// Writes where the answer to a command differs from what the lines expect.
fn judge_answer<'t>(
    alloc: Global,
    words: &str,
    text: &'t str,
    lines: &[&'t str],
    status: u8,
    is_noted: bool,
    sinks: &Sinks,
    found: &mut String,
) -> Result<(), Fault<'t>> {
    judge_status(words, lines, status, is_noted, found)?;
    judge_err(alloc, words, lines, &sinks.err, found)?;
    judge_out(alloc, words, text, lines, &sinks.out, found)
}

/// Writes the status and whether there is a note, where they differ from what the lines expect.
fn judge_status<'t>(
    words: &str,
    lines: &[&'t str],
    status: u8,
    is_noted: bool,
    found: &mut String,
) -> Result<(), Fault<'t>> {
    if expected_of(lines)? == (u64::from(status), is_noted) {
        return Ok(());
    }
    Ok(write!(found, "{words}: status {status}, noted: {is_noted}; ")?)
}

/// The status that the lines expect, and whether they expect a note.
fn expected_of<'t>(lines: &[&'t str]) -> Result<(u64, bool), Fault<'t>> {
    let status = number_told(lines, "status")?;
    match (status, told(lines, "note")) {
        (Some(status), Some(note)) => Ok((status, note == "yes")),
        _ => Err(Fault::Line("a command without a status or a note")),
    }
}

/// Writes where the line of errors differs from what the lines expect.
fn judge_err<'t>(
    alloc: Global,
    words: &str,
    lines: &[&'t str],
    err: &RowSink,
    found: &mut String,
) -> Result<(), Fault<'t>> {
    let expected = unescaped(alloc, told(lines, "err").unwrap_or(""))?;
    Ok(tell_err(words, err.bytes(), expected.as_slice(), found)?)
}

fn tell_err(
    words: &str,
    written: &[u8],
    expected: &[u8],
    found: &mut String,
) -> Result<(), AllocError> {
    if written == expected {
        return Ok(());
    }
    let line = str::from_utf8(written).unwrap_or("other bytes");
    write!(found, "{words}: the line {line}; ")
}

/// Writes where the output differs from what the lines expect.
fn judge_out<'t>(
    alloc: Global,
    words: &str,
    text: &'t str,
    lines: &[&'t str],
    out: &RowSink,
    found: &mut String,
) -> Result<(), Fault<'t>> {
    let expected = output_told(alloc, text, lines)?;
    Ok(tell_out(words, out.bytes(), expected.as_slice(), found)?)
}

fn tell_out(
    words: &str,
    written: &[u8],
    expected: &[u8],
    found: &mut String,
) -> Result<(), AllocError> {
    if written == expected {
        return Ok(());
    }
    let len = common_len(written, expected);
    write!(found, "{words}: other output from byte {len} on; ")
}

/// The output that the lines expect: a text, or else messages.
fn output_told<'t>(alloc: Global, text: &'t str, lines: &[&'t str]) -> Result<Vec<u8>, Fault<'t>> {
    match told(lines, "out_text") {
        Some(out) => unescaped(alloc, out),
        None => message_bytes(alloc, text, told(lines, "out").unwrap_or("")),
    }
}

/// Writes where the calls and pids of the registry differ from what the lines expect.
fn judge_registry<'t, R: Wait>(
    rt: &R,
    place: &mut Place,
    lines: &[&'t str],
    found: &mut String,
) -> Result<(), Fault<'t>> {
    judge_calls(place.calls(rt)?, lines, found)?;
    judge_pids(rt, place, told(lines, "free").unwrap_or(""), false, found)?;
    judge_pids(rt, place, told(lines, "taken").unwrap_or(""), true, found)
}

/// Writes how many calls the registry got, where that differs from what the lines expect.
fn judge_calls<'t>(calls: u64, lines: &[&'t str], found: &mut String) -> Result<(), Fault<'t>> {
    match number_told(lines, "calls")? {
        Some(expected) if expected != calls => Ok(write!(found, "{calls} calls; ")?),
        _ => Ok(()),
    }
}

/// Writes which of the pids are taken, or free, though the other is expected.
fn judge_pids<'t, R: Wait>(
    rt: &R,
    place: &mut Place,
    pids: &'t str,
    expected: bool,
    found: &mut String,
) -> Result<(), Fault<'t>> {
    for pid in pids.split(" ") {
        if !pid.is_empty() {
            judge_pid(rt, place, pid, expected, found)?;
        }
    }
    Ok(())
}

fn judge_pid<'t, R: Wait>(
    rt: &R,
    place: &mut Place,
    pid: &'t str,
    expected: bool,
    found: &mut String,
) -> Result<(), Fault<'t>> {
    let is_taken = place.is_taken(rt, pid)?;
    if is_taken != expected {
        write!(found, "the pid {pid} is taken: {is_taken}; ")?;
    }
    Ok(())
}
