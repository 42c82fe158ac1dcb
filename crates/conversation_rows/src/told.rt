//! The case that the lines of a row tell.

use crate::cases::Case;
use crate::fronts::{Front, all_of};
use crate::script::Step;
use crate::serving::{Plan, Reads};
use crate::verdict::{Between, Expected};
use row_files::{Fault, number_told, parsed, told};

/// The one case that the lines tell.
pub fn case_told<'t>(lines: &[&'t str], steps: &[Step]) -> Result<Case<'t>, Fault<'t>> {
    let all = all_of(steps);
    Ok(Case {
        client: all.client,
        plan: plan_told(lines)?,
        expected: expected_of(lines, all)?,
    })
}

/// The end that the lines tell.
pub fn end_told<'t>(lines: &[&'t str]) -> &'t str {
    told(lines, "end").unwrap_or("Terminate")
}

/// What the lines expect.
fn expected_of<'t>(lines: &[&'t str], all: Front) -> Result<Expected<'t>, Fault<'t>> {
    let end = end_told(lines);
    Ok(Expected {
        end,
        written: written_told(lines, all)?,
        calls: calls_told(end, all),
    })
}

/// How many bytes of the replies the lines expect.
fn written_told<'t>(lines: &[&'t str], all: Front) -> Result<Between, Fault<'t>> {
    let most = number_told(lines, "written")?.unwrap_or(all.replies as u64) as usize;
    let least = match told(lines, "prefix") {
        None => most,
        Some(_) => 0,
    };
    Ok(Between { least, most })
}

/// How many registry calls are expected with this end.
fn calls_told(end: &str, all: Front) -> Between {
    let least = if end == "WriteFault" { 0 } else { all.calls };
    Between {
        least,
        most: all.calls,
    }
}

/// The plan that the lines tell.
fn plan_told<'t>(lines: &[&'t str]) -> Result<Plan<'t>, Fault<'t>> {
    Ok(Plan {
        reads: reads_told(lines),
        source_fails: number_told(lines, "read_fails")?,
        sink_fails: failing_write(lines)?,
        desk_fails: number_told(lines, "desk_fails")?,
        turns: number_told(lines, "turns")?.unwrap_or(100),
    })
}

/// The write that fails, if the lines tell one.
fn failing_write<'t>(lines: &[&'t str]) -> Result<Option<(u64, usize)>, Fault<'t>> {
    match told(lines, "write_fails") {
        None => Ok(None),
        Some(words) => pair_of(words),
    }
}

/// How many bytes each read gives, as the lines tell.
fn reads_told<'t>(lines: &[&'t str]) -> Reads<'t> {
    match told(lines, "reads") {
        Some("single") => Reads::Single,
        Some("messages") => Reads::Messages(0),
        Some(words) => Reads::Told(words),
        None => Reads::Told(""),
    }
}

/// The number of a call, and how many bytes it takes.
fn pair_of<'t>(words: &'t str) -> Result<Option<(u64, usize)>, Fault<'t>> {
    let (call, taken) = words.split_once(" ").unwrap_or((words, ""));
    let call = parsed::<u64>(call)?;
    Ok(Some((call, parsed::<usize>(taken)?)))
}
