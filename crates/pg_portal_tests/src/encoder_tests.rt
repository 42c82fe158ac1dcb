//! How rows are made.

ghost use Rattle.std.specs.Prelude.{◌≤◌, ◌+◌, IfOk, length};

use pg_interval::Interval;
use pg_messages::{DataRow, PgList, PgStr};
use pg_portal::{DataRowEncoder, FieldInfo};
use pg_text::{FieldFormat, PgType, ToSql, ToSqlText};
use std::alloc::{AllocError, Global};
use std::sync::Arc;

/// Appends a column of intervals.
fn push_column(
    alloc: Global,
    fields: &mut PgList<FieldInfo>,
    format: FieldFormat,
) -> Result<(), AllocError>
    ensures { length fields.new ≤ length fields.old + 1 }
{
    let name = PgStr::copy_of(alloc, "span")?;
    fields.push(FieldInfo::new(alloc, name, None, None, PgType::Interval, format)?)
}

/// A binary column and a text column.
fn columns(alloc: Global) -> Result<PgList<FieldInfo>, AllocError>
    ensures { IfOk result (λ fields. length fields ≤ 2) }
{
    let mut fields = PgList::new(alloc);
    push_column(alloc, &mut fields, FieldFormat::Binary)?;
    push_column(alloc, &mut fields, FieldFormat::Text)?;
    Ok(fields)
}

/// An encoder of rows with these columns.
fn encoder(alloc: Global) -> Result<DataRowEncoder, AllocError> {
    DataRowEncoder::new(alloc, Arc::new(alloc, columns(alloc)?)?)
}

/// Appends a cell where a column is left, and tells whether one was.
fn is_encoded<T: ToSql + ToSqlText>(rows: &mut DataRowEncoder, value: &T) -> bool {
    rows.columns_left() > 0 && rows.encode_field(value).is_ok()
}

/// Appends a day, and the same day as an `Option`, and tells whether there was a column for both and
/// for no third cell.
fn are_days_encoded(rows: &mut DataRowEncoder) -> bool {
    let day = Interval::new(0, 1, 0);
    is_encoded(rows, &day) && is_encoded(rows, &Some(day)) && !is_encoded(rows, &day)
}

/// Appends two nulls.
fn are_nulls_encoded(rows: &mut DataRowEncoder) -> bool {
    let null: Option<Interval> = None;
    is_encoded(rows, &null) && is_encoded(rows, &null)
}

/// Whether a row of two cells has this payload.
fn is_row(row: &DataRow, payload: &[u8]) -> bool {
    row.field_count == 2 && row.payload.as_slice() == payload
}

/// A binary cell of one day, and a text cell of it.
const DAY_AND_DAY: [u8; 29] = [
    0, 0, 0, 16, 0, 0, 0, 0, 0, 0, 0, 0, 0, 0, 0, 1, 0, 0, 0, 0, 0, 0, 0, 5, b'1', b' ', b'd',
    b'a', b'y',
];

/// Two nulls.
const NULLS: [u8; 8] = [255; 8];

/// Whether the next row of an encoder is two days, and then it can take another row.
fn gives_days(rows: &mut DataRowEncoder) -> Result<bool, AllocError> {
    let encoded = are_days_encoded(rows);
    let row = rows.take_row()?;
    Ok(encoded && is_row(&row, &DAY_AND_DAY) && rows.columns_left() == 2)
}

/// Whether the last row of an encoder is two nulls.
fn ends_in_nulls(mut rows: DataRowEncoder) -> Result<bool, AllocError> {
    let encoded = are_nulls_encoded(&mut rows);
    let row = rows.finish()?;
    Ok(encoded && is_row(&row, &NULLS))
}

/// Whether rows of days and of nulls are encoded.
fn are_rows_encoded(alloc: Global) -> Result<bool, AllocError> {
    let mut rows = encoder(alloc)?;
    Ok(gives_days(&mut rows) == Ok(true) && ends_in_nulls(rows)?)
}

#[test]
fn rows_of_two_columns(rt: HostRuntime) {
    assert!(rt; are_rows_encoded(rt.alloc()) == Ok(true));
}
