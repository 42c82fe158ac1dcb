//! Cells as they are written: in a row, each after its length (protocol: Message Formats, DataRow);
//! in a line of a COPY, with tabs between them (protocol: COPY Operations).

ghost use Rattle.std.specs.Prelude.{◌≡◌, ◌≤◌, ◌+◌, ◌++◌, OnOk, OnErr, IfErr, Some, length};
ghost use Rattle.pg_text.specs.Cells.{AtCell, IsShort};
ghost use Rattle.pg_portal.specs.Encoding.{frame, cell_bytes, field_cell, line_cell, IsRefusal};

use bytes::BytesMut;
use pg_text::{CellError, FieldFormat, FormatOptions, IsNull, PgType, ToSql, ToSqlText};
use std::alloc::AllocError;

/// What stands before the bytes of a cell: Int32 length, and -1 for a null.
#[inline(always)]
fn frame(len: Option<u32>) -> [u8; 4]
    ensures { result ≡ frame len }
{
    match len {
        Some(len) => len.to_be_bytes(),
        None => [255; 4],
    }
}

/// Appends a cell of these bytes to a row's payload.
#[inline(always)]
pub fn push_cell(payload: &mut Vec<u8>, bytes: &[u8]) -> Result<(), AllocError>
    requires { length bytes.now ≤ 2147483647 }
    ensures pushed { OnOk result (payload.new.items
        ≡ payload.old.items ++ cell_bytes (Some bytes.now)) }
    ensures len { OnOk result (length payload.new.items
        ≡ length payload.old.items + 4 + length bytes.now) }
{
    payload.extend_from_slice(&frame(Some(bytes.len() as u32)))?;
    payload.extend_from_slice(bytes)
}

/// Appends a cell of sixteen bytes to a row's payload, in one copy with its length.
#[inline(always)]
pub fn push_cell_of_sixteen(payload: &mut Vec<u8>, bytes: [u8; 16]) -> Result<(), AllocError>
    ensures pushed { OnOk result (payload.new.items
        ≡ payload.old.items ++ cell_bytes (Some bytes)) }
    ensures len { OnOk result (length payload.new.items ≡ length payload.old.items + 20) }
{
    let mut cell = [0; 20];
    cell[..4].copy_from_slice(&frame(Some(16)));
    cell[4..].copy_from_slice(&bytes);
    payload.extend_from_slice(&cell)
}

/// Appends a cell of this text to a line of a COPY. `index` is the number of cells before it. A tab
/// stands before each cell but the first.
#[inline(always)]
pub fn push_line_cell(payload: &mut Vec<u8>, index: usize, text: &[u8]) -> Result<(), AllocError>
    ensures pushed { OnOk result (payload.new.items
        ≡ payload.old.items ++ line_cell index text.now) }
    ensures len { OnOk result (length payload.new.items
        ≤ length payload.old.items + 1 + length text.now) }
{
    if index != 0 {
        payload.extend_from_slice(b"\t")?;
    }
    payload.extend_from_slice(text)
}

/// Appends the cell of a value to a row's payload. Its length is written once its bytes are there.
/// After an error nothing is appended.
pub(crate) fn push_value<T: ToSql + ToSqlText>(
    payload: &mut BytesMut,
    value: &T,
    data_type: PgType,
    format: FieldFormat,
    format_options: &FormatOptions,
) -> Result<(), CellError>
    ensures cell { OnOk result (AtCell
        (field_cell T.binary T.text value.now data_type format format_options.now)
        (λ cell. (payload.new.items ≡ payload.old.items ++ cell_bytes cell) × IsShort cell)) }
    ensures unchanged { OnErr result (payload.new.items ≡ payload.old.items) }
    ensures refusal { IfErr result (IsRefusal
        (field_cell T.binary T.text value.now data_type format format_options.now)) }
{
    let start = payload.len();
    payload.extend_from_slice(&frame(None))?;
    let answer = match format {
        FieldFormat::Binary => value.to_sql(data_type, payload),
        FieldFormat::Text => {
            let alloc = *payload.allocator();
            value.to_sql_text(alloc, data_type, payload, format_options)
        }
    };
    match answer {
        Ok(IsNull::Yes) => Ok(()),
        Ok(IsNull::No) => {
            let len = (payload.len() - start - 4) as u32;
            payload.as_mut_slice()[start..start + 4].copy_from_slice(&frame(Some(len)));
            Ok(())
        }
        Err(error) => {
            payload.truncate(start);
            Err(error)
        }
    }
}
