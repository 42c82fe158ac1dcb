ghost use Rattle.std.specs.Prelude.{◌≢◌, length};

use crate::style::Style;
use pg_interval::{Interval, ParseError};
use std::io;
use std::time::{Clock, Instant};

/// Reads the texts in a style, and tells how many are good. Then it reads them `rounds` times more,
/// unless that is 0, and tells the nanoseconds of a read.
pub fn read_texts<R: Print + Clock>(
    rt: &R,
    style: Style,
    rounds: u32,
    texts: &[String],
) -> io::Result<()> {
    println!(rt; "{}", good(style, texts))?;
    if rounds == 0 || texts.is_empty() {
        return Ok(());
    }
    tell_times(rt, style, rounds, texts)
}

/// Reads the texts `rounds` times, and tells the nanoseconds of a read.
fn tell_times<R: Print + Clock>(
    rt: &R,
    style: Style,
    rounds: u32,
    texts: &[String],
) -> io::Result<()>
    requires rounds { rounds ≢ 0 }
    requires texts { length texts.now ≢ 0 }
{
    let start = Instant::now(rt)?;
    let mut sum = 0u64;
    for _ in 0..rounds {
        sum = sum.wrapping_add(good(style, texts));
    }
    let nanoseconds = start.elapsed(rt)?.as_nanos();
    let reads = u128::from(rounds) * (texts.len() as u128);
    println!(rt; "{} ns, {sum} good", nanoseconds / reads)
}

/// How many of the texts stand for an interval.
fn good(style: Style, texts: &[String]) -> u64 {
    let mut count = 0u64;
    for text in texts {
        if let Ok(_interval) = read(style, text.as_str()) {
            count = count.wrapping_add(1);
        }
    }
    count
}

/// The answer of the style's reader.
fn read(style: Style, text: &str) -> Result<Interval, ParseError> {
    match style {
        Style::Postgres => Interval::from_postgres(text),
        Style::PostgresVerbose => Interval::from_postgres_verbose(text),
        Style::Iso8601 => Interval::from_iso(text),
        Style::SqlStandard => Interval::from_sql(text),
    }
}
