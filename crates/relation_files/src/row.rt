//! Rows.

ghost use Rattle.std.specs.Prelude.{◌≡◌, IfOk, IfErr, Some, None};
ghost use Rattle.relation_files.specs.Lines.{fields_of};
ghost use Rattle.relation_files.specs.Told.{row_of};
ghost use Rattle.relation_files.specs.Refusal.{cells_reason, row_reason, line_reason};
ghost use Rattle.relation_files.specs.Reader.{IsReason, never};

use crate::errors::{LineError, LineReason};
use crate::lines::field_count;
use pg_interval::Interval;
use pg_messages::PgList;
use std::alloc::Global;

/// The intervals of a row of a relation with `width` columns.
pub(crate) fn read_row(
    alloc: Global,
    width: usize,
    line: &[u8],
) -> Result<PgList<Interval>, LineError>
    ensures good { IfOk result (λ _. line_reason never (Some width) line.now ≡ None) }
    ensures row { IfOk result (λ row. row ≡ row_of line.now) }
    ensures refused { IfErr result (λ error. IsReason error
        (line_reason never (Some width) line.now)) }
{
    let Ok(text) = str::from_utf8(line) else {
        return Err(LineError::Refused(LineReason::Text));
    };
    read_fields(alloc, width, text)
}

/// The intervals of a row's text, which has to have `width` fields.
fn read_fields(alloc: Global, width: usize, text: &str) -> Result<PgList<Interval>, LineError>
    ensures good { IfOk result (λ _. row_reason width (fields_of text.now) ≡ None) }
    ensures row { IfOk result (λ row. row ≡ row_of text.now) }
    ensures refused { IfErr result (λ error. IsReason error
        (row_reason width (fields_of text.now))) }
{
    if field_count(text) != width {
        return Err(LineError::Refused(LineReason::Width));
    }
    read_cells(alloc, width, text)
}

/// The intervals of the cells. There is room for `width` of them from the start.
fn read_cells(alloc: Global, width: usize, text: &str) -> Result<PgList<Interval>, LineError>
    ensures good { IfOk result (λ _. cells_reason (fields_of text.now) ≡ None) }
    ensures row { IfOk result (λ row. row ≡ row_of text.now) }
    ensures refused { IfErr result (λ error. IsReason error (cells_reason (fields_of text.now))) }
{
    let mut row = PgList::from_vec(Vec::with_capacity(alloc, width)?);
    for cell in text.split('\t') {
        match Interval::from_postgres(cell) {
            Ok(interval) => row.push(interval)?,
            Err(error) => return Err(LineError::Refused(LineReason::Cell(error))),
        }
    }
    Ok(row)
}
