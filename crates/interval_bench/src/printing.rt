ghost use Rattle.std.specs.Prelude.{◌≢◌};

use crate::draw::Draw;
use crate::style::{STYLES, Style, name_of};
use pg_interval::{Interval, IntervalText};
use std::alloc::{AllocError, Global};
use std::io;
use std::time::{Clock, Instant};

/// Room for a text.
const ROW: usize = 96;

/// How many bytes the texts of a style have, and the nanoseconds that they took: each kept in memory
/// of its own, and each appended to a buffer.
#[derive(Clone, Copy)]
struct Printed {
    kept_bytes: u64,
    kept_nanoseconds: u128,
    appended_bytes: u64,
    appended_nanoseconds: u128,
}

/// Prints `count` intervals, drawn from a seed, in each of the four styles: small ones, and then ones
/// of any size. Each is printed to a text with memory of its own, and then on the stack and appended
/// to a buffer. It tells how many bytes that gave, and the nanoseconds of a print where `timed` asks
/// for them.
pub fn print_drawn<R: Print + Clock>(
    rt: &R,
    alloc: Global,
    count: u32,
    timed: bool,
) -> io::Result<()> {
    for small in [true, false] {
        let intervals = drawn(alloc, count, small)?;
        print_styles(rt, alloc, small, intervals.as_slice(), timed)?;
    }
    Ok(())
}

/// Prints the intervals in each of the four styles, and tells what came of it.
fn print_styles<R: Print + Clock>(
    rt: &R,
    alloc: Global,
    small: bool,
    intervals: &[Interval],
    timed: bool,
) -> io::Result<()> {
    for style in STYLES {
        let printed = printed_in(rt, alloc, style, intervals)?;
        tell_bytes(rt, small, style, printed)?;
        if timed && !intervals.is_empty() {
            tell_times(rt, intervals.len() as u128, printed)?;
        }
    }
    Ok(())
}

/// Prints the intervals in a style, both ways.
fn printed_in<R: Clock>(
    rt: &R,
    alloc: Global,
    style: Style,
    intervals: &[Interval],
) -> io::Result<Printed> {
    let start = Instant::now(rt)?;
    let kept_bytes = kept_bytes(alloc, style, intervals)?;
    let kept_nanoseconds = start.elapsed(rt)?.as_nanos();
    let start = Instant::now(rt)?;
    let appended_bytes = cell_bytes(alloc, style, intervals)?;
    let appended_nanoseconds = start.elapsed(rt)?.as_nanos();
    Ok(Printed {
        kept_bytes,
        kept_nanoseconds,
        appended_bytes,
        appended_nanoseconds,
    })
}

/// Tells how many bytes the texts gave.
fn tell_bytes(rt: &impl Print, small: bool, style: Style, printed: Printed) -> io::Result<()> {
    let Printed {
        kept_bytes,
        appended_bytes,
        ..
    } = printed;
    println!(rt;
        "{}, {}: {kept_bytes}, {appended_bytes}",
        size_name(small),
        name_of(style)
    )
}

/// Tells the nanoseconds of each of `prints` prints.
fn tell_times(rt: &impl Print, prints: u128, printed: Printed) -> io::Result<()>
    requires { prints ≢ 0 }
{
    let kept = printed.kept_nanoseconds / prints;
    let appended = printed.appended_nanoseconds / prints;
    println!(rt; "  {kept} ns, {appended} ns")
}

/// The name of the intervals' size.
fn size_name(small: bool) -> &'static str {
    if small { "small" } else { "any size" }
}

/// `count` intervals, drawn from a seed.
fn drawn(alloc: Global, count: u32, small: bool) -> Result<Vec<Interval>, AllocError> {
    let mut intervals = Vec::new(alloc);
    let mut draw = Draw::new(2026);
    for _ in 0..count {
        intervals.push(if small {
            draw.small_interval()
        } else {
            draw.interval()
        })?;
    }
    Ok(intervals)
}

/// How many bytes all texts have, each in memory of its own.
fn kept_bytes(alloc: Global, style: Style, intervals: &[Interval]) -> Result<u64, AllocError> {
    let mut bytes = 0u64;
    for interval in intervals {
        let text = text_of(alloc, style, interval)?;
        bytes = bytes.wrapping_add(text.len() as u64);
    }
    Ok(bytes)
}

/// The interval's text.
fn text_of(alloc: Global, style: Style, interval: &Interval) -> Result<String, AllocError> {
    match style {
        Style::Postgres => interval.to_postgres(alloc),
        Style::PostgresVerbose => interval.to_postgres_verbose(alloc),
        Style::Iso8601 => interval.to_iso_8601(alloc),
        Style::SqlStandard => interval.to_sql(alloc),
    }
}

/// How many bytes all texts have, each printed on the stack and from there appended to an empty
/// buffer, as to a row.
fn cell_bytes(alloc: Global, style: Style, intervals: &[Interval]) -> Result<u64, AllocError> {
    let mut row = Vec::with_capacity(alloc, ROW)?;
    let mut bytes = 0u64;
    for interval in intervals {
        row.clear();
        row.extend_from_slice(stack_text(style, interval).as_bytes())?;
        bytes = bytes.wrapping_add(row.len() as u64);
    }
    Ok(bytes)
}

/// The interval's text, on the stack.
fn stack_text(style: Style, interval: &Interval) -> IntervalText {
    match style {
        Style::Postgres => interval.postgres_text(),
        Style::PostgresVerbose => interval.postgres_verbose_text(),
        Style::Iso8601 => interval.iso_8601_text(),
        Style::SqlStandard => interval.sql_text(),
    }
}
