//! Text cells are read back.

use crate::relations::intervals_of;
use pg_interval::Interval;
use row_files::{Fault, told, told_by};
use std::alloc::Global;

/// Whether the cells of each row that the lines expect are read back, in the style that they tell,
/// as the intervals of the row of the same place among the lines that tell rows. Lines that tell no
/// style have no such cells.
pub fn is_read_back<'t>(alloc: Global, lines: &[&'t str]) -> Result<bool, Fault<'t>> {
    match told(lines, "read_back") {
        None => Ok(true),
        Some(style) => are_rows_read(alloc, style, lines),
    }
}

/// Whether the cells of each row that the lines expect are read as the intervals of the row of the
/// same place.
fn are_rows_read<'t>(alloc: Global, style: &str, lines: &[&'t str]) -> Result<bool, Fault<'t>> {
    let mut count = 0usize;
    for line in lines {
        if let Some(cells) = cells_of(line) {
            if !are_read(alloc, style, cells, row_told(lines, count))? {
                return Ok(false);
            }
            count = count.saturating_add(1);
        }
    }
    Ok(count > 0)
}

/// The cells of a row that a line expects, if it expects one.
fn cells_of<'t>(line: &'t str) -> Option<&'t str> {
    match told_by(line, "reply") {
        Some(reply) => reply.strip_prefix("DataRow | "),
        None => None,
    }
}

/// The intervals of the line at this place among those that tell rows.
fn row_told<'t>(lines: &[&'t str], place: usize) -> &'t str {
    let mut left = place;
    for line in lines {
        if let Some(words) = told_by(line, "rows") {
            if left == 0 {
                return words.split_once(" ").unwrap_or(("", words)).1;
            }
            left = left.saturating_sub(1);
        }
    }
    ""
}

/// Whether cells are read as the intervals that the words tell.
fn are_read<'t>(
    alloc: Global,
    style: &str,
    cells: &str,
    words: &'t str,
) -> Result<bool, Fault<'t>> {
    let intervals = intervals_of(alloc, words)?;
    Ok(are_cells(style, cells, intervals.as_slice()))
}

fn are_cells(style: &str, cells: &str, intervals: &[Interval]) -> bool {
    let mut count = 0usize;
    for cell in cells.split("|") {
        if read_in(style, cell.trim()) != intervals.get(count).copied() {
            return false;
        }
        count = count.saturating_add(1);
    }
    count == intervals.len()
}

/// The interval that a text stands for in a style, if there is such a style and the text stands for
/// an interval.
fn read_in(style: &str, text: &str) -> Option<Interval> {
    match style {
        "postgres" => Interval::from_postgres(text).ok(),
        "postgres_verbose" => Interval::from_postgres_verbose(text).ok(),
        "iso_8601" => Interval::from_iso(text).ok(),
        "sql_standard" => Interval::from_sql(text).ok(),
        _ => None,
    }
}
