//! Rows of relations as the protocol sends them (protocol: Message Formats, DataRow).

ghost use Rattle.std.specs.Prelude.{◌≡◌, ◌≤◌, ◌+◌, ◌++◌, [], true, Some, Ok, Err, IfOk, OnOk, length, map, zip};
ghost use Rattle.std.specs.List.{list_any};
ghost use Rattle.pg_interval.specs.Printed.{printed};
ghost use Rattle.pg_text.specs.Words.{printed_style};
ghost use Rattle.pg_messages.specs.declared.backend.PgWireBackendMessage.TheVariants as server;
ghost use Rattle.pg_messages.specs.Replies.{IsEncodable};
ghost use Rattle.pg_portal.specs.Encoding.{cell_bytes};
ghost use Rattle.pg_results.specs.Formats.{is_text};
ghost use Rattle.pg_results.specs.Rows.{IsSendable, IsSendableRow};
ghost use Rattle.pg_results.specs.Texts.{IsShortText};
ghost use Rattle.pg_results.specs.declared.error.PgWireError.TheVariants as wire;
ghost use Rattle.relation_tables.specs.RelationHandler.{all_or_error, value, row_item};
ghost use Rattle.relation_handlers.specs.Values.{HasFormats, IsPushed, joined};

use crate::style::{SessionStyle, refusal};
use pg_interval::Interval;
use pg_messages::{DataRow, PgBytes, PgStr};
use pg_portal::{PgWireError, push_cell, push_cell_of_sixteen};
use pg_text::{FieldFormat, IntervalStyle};
use std::alloc::{AllocError, Global};
use std::mem;

/// A row in these formats, one for each column, or `InvalidOptionValue` in its place where a column
/// is text and the session's style text names no style. It can be sent as a reply.
#[inline(always)]
pub(crate) fn row_item(
    alloc: Global,
    style: &SessionStyle,
    formats: &[FieldFormat],
    row: &[Interval],
) -> Result<Result<DataRow, PgWireError>, AllocError>
    requires { HasFormats row.now formats.now }
    ensures item { IfOk result (λ item. item ≡ row_item style.now formats.now row.now) }
    ensures sendable { IfOk result IsSendable }
{
    match style.or_text() {
        Ok(style) => {
            let mut made = empty_row(alloc);
            write_row(alloc, style, formats, row, &mut made)?;
            Ok(Ok(made))
        }
        Err(text) => item_without_style(alloc, text, formats, row),
    }
}

/// Writes a row in these formats into a lent row, if the session has a style, and returns whether
/// it has one. What is written can be sent as a reply.
#[inline(always)]
pub(crate) fn write_in_style(
    alloc: Global,
    style: &SessionStyle,
    formats: &[FieldFormat],
    row: &[Interval],
    made: &mut DataRow,
) -> Result<bool, AllocError>
    requires { HasFormats row.now formats.now }
    ensures item { result ≡ Ok true → Ok made.new ≡ row_item style.now formats.now row.now }
    ensures sendable { result ≡ Ok true → IsSendableRow made.new }
{
    match style.or_text() {
        Ok(style) => {
            write_row(alloc, style, formats, row, made)?;
            Ok(true)
        }
        Err(_) => Ok(false),
    }
}

/// A row, where the session's style text names no style: `InvalidOptionValue` in its place if a
/// column is text. A refused row takes memory only for its error.
#[cold]
#[inline(never)]
fn item_without_style(
    alloc: Global,
    text: &PgStr,
    formats: &[FieldFormat],
    row: &[Interval],
) -> Result<Result<DataRow, PgWireError>, AllocError>
    requires formats { HasFormats row.now formats.now }
    requires short { IsShortText text.now }
    ensures item { IfOk result (λ item.
        item ≡ row_item (Err (wire.InvalidOptionValue text.now)) formats.now row.now) }
    ensures sendable { IfOk result IsSendable }
{
    if have_text(formats) {
        return Ok(Err(refusal(alloc, text)?));
    }
    // A row without a text needs no style.
    let mut made = empty_row(alloc);
    write_row(alloc, IntervalStyle::Postgres, formats, row, &mut made)?;
    Ok(Ok(made))
}

/// A row without a cell, which takes no memory.
#[inline(always)]
fn empty_row(alloc: Global) -> DataRow {
    DataRow {
        payload: PgBytes::from_vec(Vec::new(alloc)),
        field_count: 0,
    }
}

/// Writes a row in these formats, whose texts are in a style, into a lent row, whose memory it uses
/// again.
#[inline(always)]
fn write_row(
    alloc: Global,
    style: IntervalStyle,
    formats: &[FieldFormat],
    row: &[Interval],
    made: &mut DataRow,
) -> Result<(), AllocError>
    requires { HasFormats row.now formats.now }
    ensures item { OnOk result (Ok made.new ≡ row_item (Ok style) formats.now row.now) }
    ensures encodable { OnOk result (IsEncodable (server.DataRow made.new)) }
{
    let none = PgBytes::from_vec(Vec::new(alloc));
    let mut payload = mem::replace(&mut made.payload, none).into_vec();
    payload.clear();
    push_values(&mut payload, style, formats, row)?;
    made.payload = PgBytes::from_vec(payload);
    made.field_count = row.len() as i16;
    Ok(())
}

/// Whether one of the formats is text.
fn have_text(formats: &[FieldFormat]) -> bool
    ensures { result ≡ list_any is_text formats.now }
{
    formats
        .iter()
        .any(|format| matches!(format, FieldFormat::Text))
}

/// Writes the values of a row, one after another.
#[inline(always)]
fn push_values(
    payload: &mut Vec<u8>,
    style: IntervalStyle,
    formats: &[FieldFormat],
    row: &[Interval],
) -> Result<(), AllocError>
    requires empty { payload.old.items ≡ [] }
    requires formats { HasFormats row.now formats.now }
    ensures values { OnOk result (Ok payload.new.items
        ≡ joined (all_or_error (map (λ p. value (Ok style) p.0 p.1) (zip formats.now row.now)))) }
    ensures short { OnOk result (length payload.new.items ≤ 6560000) }
{
    payload.reserve(room_for(formats))?;
    for (index, interval) in row.iter().enumerate() {
        push_value(payload, style, formats[index], interval)?;
    }
    Ok(())
}

/// Room for the values of a row: a binary value has 20 bytes, and a text with its length at most
/// 100. The first column's format decides, since mostly all are alike.
#[inline(always)]
fn room_for(formats: &[FieldFormat]) -> usize
    requires { length formats.now ≤ 1600 }
{
    match formats.first() {
        Some(FieldFormat::Binary) => 20 * formats.len(),
        _ => 100 * formats.len(),
    }
}

/// Appends an interval as a value of a row.
#[inline(always)]
fn push_value(
    payload: &mut Vec<u8>,
    style: IntervalStyle,
    format: FieldFormat,
    interval: &Interval,
) -> Result<(), AllocError>
    ensures pushed { OnOk result (IsPushed (value (Ok style) format interval.now)
        payload.old.items payload.new.items) }
    ensures short { OnOk result (length payload.new.items ≤ length payload.old.items + 4100) }
{
    match format {
        FieldFormat::Binary => push_cell_of_sixteen(payload, interval.to_cell()),
        FieldFormat::Text => push_text(payload, style, interval),
    }
}

/// Appends the text of an interval as a value of a row.
#[inline(always)]
fn push_text(
    payload: &mut Vec<u8>,
    style: IntervalStyle,
    interval: &Interval,
) -> Result<(), AllocError>
    ensures pushed { OnOk result (payload.new.items ≡ payload.old.items
        ++ cell_bytes (Some (printed (printed_style style) interval.now))) }
    ensures short { OnOk result (length payload.new.items ≤ length payload.old.items + 4100) }
{
    let text = style.text(interval);
    push_cell(payload, text.as_bytes())
}
