//! What the texts and bytes of clients stand for, or why they stand for no interval.

ghost use Rattle.std.specs.Prelude.{◌≡◌, IfOk, IfErr, string_bytes};
ghost use Rattle.std.specs.List.{list_any};
ghost use Rattle.pg_interval.specs.Texts.{is_letter};
ghost use Rattle.pg_text.specs.Words.{interval_style_name};
ghost use Rattle.pg_results.specs.Rows.{IsAnswerableItem};
ghost use Rattle.pg_results.specs.Told.{IsOutcome};
ghost use Rattle.interval_texts.specs.Reading.{style_of, reason, or_refused, interval_of, interval_in};

use pg_interval::Interval;
use pg_portal::PgWireError;
use pg_text::{CellError, FieldFormat, FromSql, IntervalStyle, PgType};
use row_handlers::user_error;
use std::alloc::{AllocError, Global};

/// The interval that a text stands for. It is read in the style postgres_verbose where it begins with
/// `@`, in iso_8601 where it begins with `P`, else in postgres where it has a letter, and else in
/// sql_standard. The error is 22007, which tells the reader that refused the text and why, or
/// `NoMemory`.
#[tactic(auto, using(crate::proofs::Sendable::text_answerable))]
pub fn read_interval(alloc: Global, text: &[u8]) -> Result<Interval, PgWireError>
    ensures outcome { IsOutcome (interval_of text.now) result }
    ensures answerable { IfErr result IsAnswerableItem }
{
    let (style, name) = style_of(text);
    or_refused(alloc, name, style.read(text))
}

/// The interval that a parameter's bytes stand for: sixteen of them where its format is binary, and
/// else a text, as [`read_interval`] reads it. The error is 22007, which tells the reader that refused
/// the bytes and why, or `NoMemory`.
#[tactic(auto, using(crate::proofs::Sendable::bytes_answerable))]
pub fn read_in_format(
    alloc: Global,
    format: Option<FieldFormat>,
    bytes: &[u8],
) -> Result<Interval, PgWireError>
    ensures outcome { IsOutcome (interval_in format bytes.now) result }
    ensures answerable { IfErr result IsAnswerableItem }
{
    match format {
        Some(FieldFormat::Binary) => {
            let read = <Interval as FromSql>::from_sql(PgType::Interval, bytes);
            or_refused(alloc, "binary", read)
        }
        _ => read_interval(alloc, bytes),
    }
}

/// The style that a text is read in, and its name: postgres_verbose where the text begins with `@`,
/// iso_8601 where it begins with `P`, else postgres where it has a letter, and else sql_standard.
fn style_of(text: &[u8]) -> (IntervalStyle, &'static str)
    ensures style { result.0 ≡ style_of text.now }
    ensures name { result.1.now ≡ interval_style_name (style_of text.now) }
{
    match text {
        [b'@', ..] => (IntervalStyle::PostgresVerbose, "postgres_verbose"),
        [b'P', ..] => (IntervalStyle::ISO8601, "iso_8601"),
        _ if has_letter(text) => (IntervalStyle::Postgres, "postgres"),
        _ => (IntervalStyle::SQLStandard, "sql_standard"),
    }
}

/// Whether a byte is a letter.
fn has_letter(text: &[u8]) -> bool
    ensures { result ≡ list_any is_letter text.now }
{
    text.iter().any(|byte| byte.is_ascii_alphabetic())
}

/// What was read, or the error that tells which reader refused, and why.
fn or_refused(
    alloc: Global,
    reader: &str,
    read: Result<Interval, CellError>,
) -> Result<Interval, PgWireError>
    ensures { IsOutcome (or_refused reader.now read) result }
{
    match read {
        Ok(interval) => Ok(interval),
        Err(cause) => {
            let reason = reason(alloc, &cause)?;
            let message = format!(in alloc; "no interval in {reader}: {reason}")?;
            Err(user_error(alloc, "22007", message.as_str())?)
        }
    }
}

/// Why a reader refused.
fn reason(alloc: Global, cause: &CellError) -> Result<String, AllocError>
    ensures { IfOk result (λ text. string_bytes text ≡ reason cause.now) }
{
    match cause {
        CellError::Parse(cause) => cause.to_string(alloc),
        CellError::ShortCell => String::from_str(alloc, "fewer than sixteen bytes"),
        _ => String::from_str(alloc, "not UTF-8"),
    }
}
