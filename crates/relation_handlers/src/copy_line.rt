//! Rows of relations as lines of a COPY (protocol: COPY Operations).

ghost use Rattle.std.specs.Prelude.{◌≡◌, ◌≤◌, ◌+◌, [], true, Ok, Err, IfOk, OnOk, length, map};
ghost use Rattle.pg_messages.specs.declared.backend.PgWireBackendMessage.TheVariants as server;
ghost use Rattle.pg_messages.specs.Replies.{IsEncodable};
ghost use Rattle.pg_results.specs.Copying.{IsSendableCopy, IsSendableData};
ghost use Rattle.pg_results.specs.Texts.{IsShortText};
ghost use Rattle.pg_results.specs.declared.error.PgWireError.TheVariants as wire;
ghost use Rattle.relation_tables.specs.RelationHandler.{all_or_error, text_of, line_item};
ghost use Rattle.relation_handlers.specs.Values.{IsPushed, tabbed, tab_joined};

use crate::style::{SessionStyle, refusal};
use pg_interval::Interval;
use pg_messages::{CopyData, PgBytes, PgStr};
use pg_portal::{PgWireError, push_line_cell};
use pg_text::IntervalStyle;
use std::alloc::{AllocError, Global};
use std::mem;

/// A row as a line, or `InvalidOptionValue` in its place where the session's style text names no
/// style. It can be sent as a reply.
#[inline(always)]
pub(crate) fn line_item(
    alloc: Global,
    style: &SessionStyle,
    row: &[Interval],
) -> Result<Result<CopyData, PgWireError>, AllocError>
    requires { length row.now ≤ 1600 }
    ensures item { IfOk result (λ item. item ≡ line_item style.now row.now) }
    ensures sendable { IfOk result IsSendableCopy }
{
    match style.or_text() {
        Ok(style) => {
            let mut made = no_data(alloc);
            write_line(alloc, style, row, &mut made)?;
            Ok(Ok(made))
        }
        Err(text) => line_without_style(alloc, text, row),
    }
}

/// Writes a row as a line into lent data, if the session has a style, and returns whether it has
/// one. What is written can be sent as a reply.
#[inline(always)]
pub(crate) fn write_line_in_style(
    alloc: Global,
    style: &SessionStyle,
    row: &[Interval],
    made: &mut CopyData,
) -> Result<bool, AllocError>
    requires { length row.now ≤ 1600 }
    ensures item { result ≡ Ok true → Ok made.new ≡ line_item style.now row.now }
    ensures sendable { result ≡ Ok true → IsSendableData made.new }
{
    match style.or_text() {
        Ok(style) => {
            write_line(alloc, style, row, made)?;
            Ok(true)
        }
        Err(_) => Ok(false),
    }
}

/// A row as a line, where the session's style text names no style: `InvalidOptionValue` in its
/// place if it has a column. A refused row takes memory only for its error.
#[cold]
#[inline(never)]
fn line_without_style(
    alloc: Global,
    text: &PgStr,
    row: &[Interval],
) -> Result<Result<CopyData, PgWireError>, AllocError>
    requires narrow { length row.now ≤ 1600 }
    requires short { IsShortText text.now }
    ensures item { IfOk result (λ item.
        item ≡ line_item (Err (wire.InvalidOptionValue text.now)) row.now) }
    ensures sendable { IfOk result IsSendableCopy }
{
    if !row.is_empty() {
        return Ok(Err(refusal(alloc, text)?));
    }
    // A row without a text needs no style.
    let mut made = no_data(alloc);
    write_line(alloc, IntervalStyle::Postgres, row, &mut made)?;
    Ok(Ok(made))
}

/// No data, which take no memory.
#[inline(always)]
fn no_data(alloc: Global) -> CopyData {
    CopyData {
        payload: PgBytes::from_vec(Vec::new(alloc)),
    }
}

/// Writes a row as a line into lent data, whose memory it uses again.
#[inline(always)]
fn write_line(
    alloc: Global,
    style: IntervalStyle,
    row: &[Interval],
    made: &mut CopyData,
) -> Result<(), AllocError>
    requires { length row.now ≤ 1600 }
    ensures item { OnOk result (Ok made.new ≡ line_item (Ok style) row.now) }
    ensures encodable { OnOk result (IsEncodable (server.CopyData made.new)) }
{
    let none = PgBytes::from_vec(Vec::new(alloc));
    let mut payload = mem::replace(&mut made.payload, none).into_vec();
    payload.clear();
    push_texts(&mut payload, style, row)?;
    payload.extend_from_slice(b"\n")?;
    made.payload = PgBytes::from_vec(payload);
    Ok(())
}

/// Writes the texts of a row, separated by tabs. It reserves room for them, each of at most 96
/// bytes, and for the newline.
#[inline(always)]
fn push_texts(
    payload: &mut Vec<u8>,
    style: IntervalStyle,
    row: &[Interval],
) -> Result<(), AllocError>
    requires empty { payload.old.items ≡ [] }
    requires narrow { length row.now ≤ 1600 }
    ensures texts { OnOk result (Ok payload.new.items
        ≡ tab_joined (all_or_error (map (text_of (Ok style)) row.now))) }
    ensures short { OnOk result (length payload.new.items ≤ 6560000) }
{
    payload.reserve(97 * row.len() + 1)?;
    for (index, interval) in row.iter().enumerate() {
        push_cell(payload, style, index, interval)?;
    }
    Ok(())
}

/// Appends the text at an index of a line, after its tab.
#[inline(always)]
fn push_cell(
    payload: &mut Vec<u8>,
    style: IntervalStyle,
    index: usize,
    interval: &Interval,
) -> Result<(), AllocError>
    ensures pushed { OnOk result (IsPushed (tabbed index (text_of (Ok style) interval.now))
        payload.old.items payload.new.items) }
    ensures short { OnOk result (length payload.new.items ≤ length payload.old.items + 4100) }
{
    let text = style.text(interval);
    push_line_cell(payload, index, text.as_bytes())
}
