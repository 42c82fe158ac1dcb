//! A row is served once, or as often as a sweep has cases.

use crate::cases::{Case, Sweep, Swept, case_of, count_of, sweep_of, swept_of};
use crate::finding::{Difference, Finding};
use crate::fronts::{all_of, front_of_bytes};
use crate::handlers::serve_told;
use crate::reading::is_read_back;
use crate::script::{Script, Step, script_of};
use crate::serving::{Place, place_of};
use crate::told::case_told;
use crate::verdict::difference;
use row_files::{Fault, numbers_of, told};
use std::alloc::Global;

/// The first difference between what a row expects and what came of it, if there is one.
pub fn judge<'t>(alloc: Global, lines: &[&'t str]) -> Result<Option<Finding>, Fault<'t>> {
    let script = script_of(alloc, lines);
    judge_script(alloc, lines, &script)
}

/// Serves a row once, or in each case of its sweep.
fn judge_script<'t>(
    alloc: Global,
    lines: &[&'t str],
    script: &Script<'t>,
) -> Result<Option<Finding>, Fault<'t>> {
    if let Some(fault) = script.fault() {
        return Err(fault);
    }
    let sweep = sweep_told(lines)?;
    match judge_cases(alloc, lines, script, sweep)? {
        None => judge_rest(alloc, lines, script.steps.as_slice()),
        found => Ok(found),
    }
}

/// The sweep that the lines tell, if they tell one.
fn sweep_told<'t>(lines: &[&'t str]) -> Result<Option<Sweep>, Fault<'t>> {
    match told(lines, "sweep") {
        None => Ok(None),
        Some(word) => sweep_of(word),
    }
}

fn judge_cases<'t>(
    alloc: Global,
    lines: &[&'t str],
    script: &Script<'t>,
    sweep: Option<Sweep>,
) -> Result<Option<Finding>, Fault<'t>> {
    let steps = script.steps.as_slice();
    let swept = swept_of(lines, steps);
    let count = count_of(sweep, swept);
    if count == 0 {
        return Err(Fault::Line("a sweep without a case"));
    }
    for place in 0..count {
        let case = case_at(lines, steps, sweep, swept, place)?;
        let found = found_in(alloc, lines, script, case)?;
        if found.is_some() {
            return Ok(Finding::of(place, found));
        }
    }
    Ok(None)
}

/// The case at this place: of a sweep, or the one that the lines tell.
fn case_at<'t>(
    lines: &[&'t str],
    steps: &[Step],
    sweep: Option<Sweep>,
    swept: Swept<'t>,
    place: usize,
) -> Result<Case<'t>, Fault<'t>> {
    match sweep {
        None => case_told(lines, steps),
        Some(sweep) => Ok(case_of(sweep, swept, steps, place)),
    }
}

/// Serves a case, and tells what differs from what is expected. A line may tell the lengths of the
/// writes.
fn found_in<'t>(
    alloc: Global,
    lines: &[&'t str],
    script: &Script<'t>,
    case: Case<'t>,
) -> Result<Option<Difference>, Fault<'t>> {
    let client = script.client.as_slice();
    let (client, _) = client.split_at(case.client.min(client.len()));
    let mut place = place_of(alloc, lines, script.steps.as_slice(), client, case.plan)?;
    found_at(alloc, lines, script, case, &mut place)
}

fn found_at<'t>(
    alloc: Global,
    lines: &[&'t str],
    script: &Script<'t>,
    case: Case<'t>,
    place: &mut Place,
) -> Result<Option<Difference>, Fault<'t>> {
    let end = serve_told(alloc, lines, place, case.plan.turns)?;
    Ok(difference(script, end, place, case.expected, told(lines, "writes")))
}

/// What differs in the rest that the lines may tell: whether cells are read back, and how many bytes
/// answer each front of the client's bytes.
fn judge_rest<'t>(
    alloc: Global,
    lines: &[&'t str],
    steps: &[Step],
) -> Result<Option<Finding>, Fault<'t>> {
    if !is_read_back(alloc, lines)? {
        return Ok(Finding::of(0, Some(Difference::Cell)));
    }
    match told(lines, "amounts") {
        None => Ok(None),
        Some(words) => amounts_differ(alloc, words, steps),
    }
}

/// The first front of the client's bytes that isn't answered by as many bytes as the words tell. The
/// words are pairs of numbers: a length, and how many bytes answer a front of that length or more.
fn amounts_differ<'t>(
    alloc: Global,
    words: &'t str,
    steps: &[Step],
) -> Result<Option<Finding>, Fault<'t>> {
    let amounts = numbers_of(alloc, words)?;
    for len in 0..=all_of(steps).client {
        if amount_at(amounts.as_slice(), len) != front_of_bytes(steps, len).replies {
            return Ok(Finding::of(len, Some(Difference::Replies(0))));
        }
    }
    Ok(None)
}

/// The number that stands behind the last one that is no more than this length.
fn amount_at(amounts: &[usize], len: usize) -> usize {
    let mut found = 0usize;
    for pair in amounts.chunks(2) {
        if let [from, amount] = pair
            && *from <= len
        {
            found = *amount;
        }
    }
    found
}
