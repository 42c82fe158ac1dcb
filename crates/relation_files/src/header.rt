//! Headers.

ghost use Rattle.std.specs.Prelude.{◌≡◌, ◌∷◌, nat_le, None, IfOk, IfErr, length};
ghost use Rattle.std.specs.Option.{is_some};
ghost use Rattle.std.specs.FinMap as map;
ghost use Rattle.std.specs.List.{list_all};
ghost use Rattle.relation_tables.specs.Names.{is_column_name, are_columns};
ghost use Rattle.pg_interval.specs.Texts.{are_digits, is_digit};
ghost use Rattle.relation_files.specs.Lines.{fields_of};
ghost use Rattle.relation_files.specs.Told.{header_of, polls_of};
ghost use Rattle.relation_files.specs.Refusal.{header_reason, line_reason};
ghost use Rattle.relation_files.specs.Reader.{IsReason, fields_behind};

use crate::errors::{LineError, LineReason};
use crate::lines::{field_count, first_field};
use pg_messages::{PgList, PgStr};
use pg_portal::Named;
use relation_tables::{MOST_COLUMNS, Relation, is_column_name, is_name};
use std::alloc::{AllocError, Global};

/// The relation of a header, which has no row yet. `taken` has the names of earlier headers.
pub(crate) fn read_header(
    alloc: Global,
    taken: &Named<()>,
    line: &[u8],
) -> Result<Relation, LineError>
    ensures good { IfOk result (λ _. line_reason (λ name. is_some (map.get taken.now name)) None
        line.now ≡ None) }
    ensures relation { IfOk result (λ relation. relation ≡ header_of (fields_of line.now)) }
    ensures refused { IfErr result (λ error. IsReason error
        (line_reason (λ name. is_some (map.get taken.now name)) None line.now)) }
{
    let Ok(text) = str::from_utf8(line) else {
        return Err(LineError::Refused(LineReason::Text));
    };
    let (name, behind) = first_field(text);
    let Some(others) = behind else {
        return Err(LineError::Refused(LineReason::Header));
    };
    let (polls, columns) = first_field(others);
    read_fields(alloc, taken, name, polls, columns)
}

/// The relation of a header's fields.
fn read_fields(
    alloc: Global,
    taken: &Named<()>,
    name: &str,
    polls: &str,
    columns: Option<&str>,
) -> Result<Relation, LineError>
    ensures good { IfOk result (λ _. header_reason (λ name. is_some (map.get taken.now name))
        (name.now ∷ polls.now ∷ fields_behind columns.entry) ≡ None) }
    ensures relation { IfOk result (λ relation. relation
        ≡ header_of (name.now ∷ polls.now ∷ fields_behind columns.entry)) }
    ensures refused { IfErr result (λ error. IsReason error
        (header_reason (λ name. is_some (map.get taken.now name))
        (name.now ∷ polls.now ∷ fields_behind columns.entry))) }
{
    let Some(unready) = read_polls(polls) else {
        return Err(LineError::Refused(LineReason::Header));
    };
    if taken.get(name).is_some() || !is_name(name) {
        return Err(LineError::Refused(LineReason::Name));
    }
    if !are_good_columns(columns) {
        return Err(LineError::Refused(LineReason::Column));
    }
    Ok(Relation {
        name: PgStr::copy_of(alloc, name)?,
        unready,
        columns: copy_columns(alloc, columns)?,
        rows: PgList::new(alloc),
    })
}

/// The number of unready polls: one or more decimal digits of value at most 4,294,967,295.
fn read_polls(field: &str) -> Option<u32>
    ensures { result ≡ polls_of field.now }
{
    if !says_number(field.as_bytes()) {
        return None;
    }
    field.parse::<u32>().ok()
}

/// Whether there are one or more bytes, each a decimal digit.
fn says_number(bytes: &[u8]) -> bool
    ensures { result ≡ are_digits bytes.now }
{
    !bytes.is_empty() && has_digits(bytes)
}

/// Whether each byte is a decimal digit.
fn has_digits(bytes: &[u8]) -> bool
    ensures { result ≡ list_all is_digit bytes.now }
{
    bytes.iter().all(|byte| b'0' <= *byte && *byte <= b'9')
}

/// Whether these fields, if there are any, are at most 1,600 names of columns.
fn are_good_columns(columns: Option<&str>) -> bool
    ensures { result ≡ are_columns (fields_behind columns.entry) }
{
    match columns {
        None => true,
        Some(text) => has_few_fields(text) && has_good_fields(text),
    }
}

/// Whether there are at most 1,600 fields.
fn has_few_fields(text: &str) -> bool
    ensures { result ≡ nat_le (length (fields_of text.now)) 1600 }
{
    field_count(text) <= MOST_COLUMNS
}

/// Whether each field is a column's name.
fn has_good_fields(text: &str) -> bool
    ensures { result ≡ list_all is_column_name (fields_of text.now) }
{
    text.split('\t').all(|column| is_column_name(column))
}

/// Copies of these fields, if there are any.
fn copy_columns(alloc: Global, columns: Option<&str>) -> Result<PgList<PgStr>, AllocError>
    ensures { IfOk result (λ copies. copies ≡ fields_behind columns.entry) }
{
    match columns {
        None => Ok(PgList::new(alloc)),
        Some(text) => copy_fields(alloc, text),
    }
}

/// Copies of the fields.
fn copy_fields(alloc: Global, text: &str) -> Result<PgList<PgStr>, AllocError>
    ensures { IfOk result (λ copies. copies ≡ fields_of text.now) }
{
    let mut copies = PgList::new(alloc);
    for field in text.split('\t') {
        copies.push(PgStr::copy_of(alloc, field)?)?;
    }
    Ok(copies)
}
