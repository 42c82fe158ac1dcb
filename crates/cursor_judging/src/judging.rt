//! Rows are judged.

use crate::row::{Row, row_of};
use crate::serving::{Serving, judge_one, pieces_told};
use crate::verdict::{Difference, finding};
use row_files::{Fault, Judge, up_to_one};
use std::alloc::Global;

/// Judges rows of conversations with cursors.
#[derive(Drop)]
pub struct CursorRows<S> {
    /// Who serves the client of each row.
    pub serving: S,
}

impl<S: Serving> Judge for CursorRows<S> {
    fn difference<'t>(
        &self,
        alloc: Global,
        _text: &'t str,
        row: &'t str,
    ) -> Result<Option<String>, Fault<'t>> {
        let row = row_of(alloc, row)?;
        judge_row(alloc, &self.serving, &row)
    }
}

/// What differs from what a row expects.
fn judge_row<'t, S: Serving>(
    alloc: Global,
    serving: &S,
    row: &Row<'t>,
) -> Result<Option<String>, Fault<'t>> {
    match row.option("sweep") {
        Some("cuts") => judge_cuts(alloc, serving, row),
        _ => told(
            alloc,
            0,
            judge_one(alloc, serving, row, pieces_told(alloc, row)?)?,
        ),
    }
}

/// What differs first where a row is served once for each number of bytes that the first read may
/// give.
fn judge_cuts<'t, S: Serving>(
    alloc: Global,
    serving: &S,
    row: &Row<'t>,
) -> Result<Option<String>, Fault<'t>> {
    for first in 1..row.client.len() {
        let found = judge_one(alloc, serving, row, up_to_one(alloc, Some(first))?)?;
        if found.is_some() {
            return told(alloc, first, found);
        }
    }
    Ok(None)
}

/// The difference in the case of this number, as a text.
fn told<'t>(
    alloc: Global,
    case: usize,
    found: Option<Difference>,
) -> Result<Option<String>, Fault<'t>> {
    match found {
        None => Ok(None),
        Some(difference) => Ok(Some(finding(alloc, case, difference)?)),
    }
}
