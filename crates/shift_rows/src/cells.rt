//! The cells of a shift as the protocol sends them (protocol: Message Formats, DataRow).

ghost use Rattle.std.specs.Prelude.{◌≡◌, ◌≤◌, ◌+◌, ◌++◌, [], Some, OnOk, length};
ghost use Rattle.pg_messages.specs.declared.backend.PgWireBackendMessage.TheVariants as server;
ghost use Rattle.pg_messages.specs.Replies.{IsEncodable};
ghost use Rattle.pg_portal.specs.Encoding.{cell_bytes};
ghost use Rattle.shift_rows.specs.ShiftRows.{interval_in, row_in};

use pg_interval::Interval;
use pg_messages::{DataRow, PgBytes};
use pg_portal::{push_cell, push_cell_of_sixteen};
use pg_text::{FieldFormat, IntervalStyle};
use shift_table::{Shift, ShiftName};
use std::alloc::{AllocError, Global};
use std::mem;

/// The bytes of the longest row: a name has at most 63, the text of an interval 96, and a length
/// stands before each.
const LONGEST: usize = 267;

/// A row without a cell, which takes no memory.
#[inline(always)]
pub(crate) fn empty_row(alloc: Global) -> DataRow {
    DataRow {
        payload: PgBytes::from_vec(Vec::new(alloc)),
        field_count: 0,
    }
}

/// Writes the row of a shift, whose start and length are in these formats, into a lent row, whose
/// memory it uses again. What is written can be sent as a reply.
#[inline(always)]
pub(crate) fn write_row(
    alloc: Global,
    shift: &Shift,
    start: FieldFormat,
    length: FieldFormat,
    made: &mut DataRow,
) -> Result<(), AllocError>
    ensures row { OnOk result (made.new ≡ row_in start length shift.now) }
    ensures encodable { OnOk result (IsEncodable (server.DataRow made.new)) }
{
    let none = PgBytes::from_vec(Vec::new(alloc));
    let mut payload = mem::replace(&mut made.payload, none).into_vec();
    payload.clear();
    payload.reserve(LONGEST)?;
    push_name(&mut payload, &shift.name)?;
    push_interval(&mut payload, start, &shift.start)?;
    push_interval(&mut payload, length, &shift.length)?;
    made.payload = PgBytes::from_vec(payload);
    made.field_count = 3;
    Ok(())
}

/// Appends a name as a cell.
#[inline(always)]
fn push_name(payload: &mut Vec<u8>, name: &ShiftName) -> Result<(), AllocError>
    ensures pushed { OnOk result (payload.new.items
        ≡ payload.old.items ++ cell_bytes (Some name.now)) }
    ensures short { OnOk result (length payload.new.items ≤ length payload.old.items + 67) }
{
    push_cell(payload, name.as_str().as_bytes())
}

/// Appends an interval as a cell in a format.
#[inline(always)]
fn push_interval(
    payload: &mut Vec<u8>,
    format: FieldFormat,
    interval: &Interval,
) -> Result<(), AllocError>
    ensures pushed { OnOk result (payload.new.items
        ≡ payload.old.items ++ cell_bytes (Some (interval_in format interval.now))) }
    ensures short { OnOk result (length payload.new.items ≤ length payload.old.items + 100) }
{
    match format {
        FieldFormat::Binary => push_cell_of_sixteen(payload, interval.to_cell()),
        FieldFormat::Text => {
            let text = IntervalStyle::Postgres.text(interval);
            push_cell(payload, text.as_bytes())
        }
    }
}
