// Rows on cells.
use crate::cut;
use crate::told::{show_error, show_interval, show_some};
use bytes::BytesMut;
use jiff::SignedDuration;
use pg_interval::Interval;
use pg_messages::PgStr;
use pg_text::{CellError, FormatOptions, FromSql, FromSqlText, IsNull, PgType, ToSql, ToSqlText};
use row_files::{push_pairs, three_numbers};
use std::alloc::{AllocError, Global};
use std::io;

/// Prints the answer to a row on cells. The first field of a row on text cells is the interval
/// style.
pub(crate) fn answer(rt: &HostRuntime, word: &str, fields: &str) -> io::Result<()> {
    let (first, second) = cut(fields);
    let options = options_with(rt.alloc(), first)?;
    answer_under(rt, &options, word, first, second)
}

/// The options with this interval style.
fn options_with(alloc: Global, style: &str) -> Result<FormatOptions, AllocError> {
    let mut options = FormatOptions::new_default(alloc)?;
    options.interval_style = PgStr::copy_of(alloc, style)?;
    Ok(options)
}

fn answer_under(
    rt: &HostRuntime,
    options: &FormatOptions,
    word: &str,
    first: &str,
    second: &str,
) -> io::Result<()> {
    match word {
        "parse" | "parse_some" => read(rt, options, word, second.as_bytes()),
        "parse_hex" => read_digits(rt, options, word, second),
        "read_cell" | "read_some" => read_digits(rt, options, word, first),
        "text_of_duration" => text(rt, &duration_of(second), options),
        _ => write(rt, options, word, type_of(first), interval_of(second)),
    }
}

/// Prints what the cell of hexadecimal digits is read as.
fn read_digits(
    rt: &HostRuntime,
    options: &FormatOptions,
    word: &str,
    digits: &str,
) -> io::Result<()> {
    let cell = cell_of(rt.alloc(), digits)?;
    read(rt, options, word, cell.as_slice())
}

/// The bytes of a binary cell.
fn cell_of(alloc: Global, text: &str) -> Result<Vec<u8>, AllocError> {
    let mut bytes = Vec::new(alloc);
    if !push_pairs(&mut bytes, text.as_bytes())? {
        bytes.clear();
    }
    Ok(bytes)
}

/// Prints what a cell is read as.
fn read(rt: &HostRuntime, options: &FormatOptions, word: &str, cell: &[u8]) -> io::Result<()> {
    match word {
        "read_cell" => show_interval(rt, <Interval as FromSql>::from_sql(PgType::Interval, cell)),
        "read_some" => show_some(rt, Option::<Interval>::from_sql(PgType::Interval, cell)),
        "parse_some" => show_some(
            rt,
            Option::<Interval>::from_sql_text(rt.alloc(), PgType::Interval, cell, options),
        ),
        _ => show_interval(
            rt,
            Interval::from_sql_text(rt.alloc(), PgType::Interval, cell, options),
        ),
    }
}

/// Months, days and microseconds, with spaces between them; zeros where the text isn't of this form.
fn interval_of(text: &str) -> Interval {
    let (months, days, microseconds) = three_numbers(text).unwrap_or((0, 0, 0));
    Interval::new(months, days, microseconds)
}

/// Nanoseconds.
fn duration_of(text: &str) -> SignedDuration {
    let nanos = text.parse::<i128>().unwrap_or(0);
    SignedDuration::try_from_nanos_i128(nanos).unwrap_or(SignedDuration::ZERO)
}

fn type_of(oid: &str) -> PgType {
    PgType::from_oid(oid.parse::<u32>().unwrap_or(0)).unwrap_or(PgType::Unknown)
}

/// Prints the cell of an interval, in the interval style or in a binary column of a type.
fn write(
    rt: &HostRuntime,
    options: &FormatOptions,
    word: &str,
    ty: PgType,
    interval: Interval,
) -> io::Result<()> {
    match word {
        "text" => text(rt, &interval, options),
        "text_of_reference" => text(rt, &&interval, options),
        "text_of_some" => text(rt, &Some(interval), options),
        "text_of_none" => text(rt, &None::<Interval>, options),
        "text_read_back" => show_interval(rt, read_back(rt.alloc(), &interval, options)),
        "binary" => binary(rt, &interval, ty),
        "binary_of_reference" => binary(rt, &&interval, ty),
        "binary_of_some" => binary(rt, &Some(interval), ty),
        "binary_of_none" => binary(rt, &None::<Interval>, ty),
        _ => rt.println("no such row"),
    }
}

/// Prints the text cell of a value, or the error, and what the buffer then holds.
fn text<T: ToSqlText>(rt: &HostRuntime, value: &T, options: &FormatOptions) -> io::Result<()> {
    let mut out = BytesMut::copy_from_slice(rt.alloc(), b">")?;
    let answer = value.to_sql_text(rt.alloc(), PgType::Interval, &mut out, options);
    show_text(rt, answer, out.as_slice())
}

fn show_text(rt: &HostRuntime, answer: Result<IsNull, CellError>, held: &[u8]) -> io::Result<()> {
    show_answer(rt, answer)?;
    rt.println(str::from_utf8(held).unwrap_or("no text"))
}

/// Prints the binary cell of a value in a column of a type, or the error, and what the buffer then
/// holds.
fn binary<T: ToSql>(rt: &HostRuntime, value: &T, ty: PgType) -> io::Result<()> {
    let mut out = BytesMut::copy_from_slice(rt.alloc(), b">")?;
    let answer = value.to_sql_checked(ty, &mut out);
    show_digits(rt, answer, out.as_slice())
}

fn show_digits(rt: &HostRuntime, answer: Result<IsNull, CellError>, held: &[u8]) -> io::Result<()> {
    show_answer(rt, answer)?;
    for byte in held {
        print!(rt; "{byte:02x}")?;
    }
    rt.println("")
}

/// Prints nothing for a cell that isn't null, `null` for a null, or the error.
fn show_answer(rt: &HostRuntime, answer: Result<IsNull, CellError>) -> io::Result<()> {
    match answer {
        Ok(IsNull::No) => Ok(()),
        Ok(IsNull::Yes) => rt.print("null"),
        Err(error) => show_error(rt, &error),
    }
}

/// The interval that its own text cell gives.
fn read_back(
    alloc: Global,
    interval: &Interval,
    options: &FormatOptions,
) -> Result<Interval, CellError> {
    let mut cell = BytesMut::new(alloc);
    interval.to_sql_text(alloc, PgType::Interval, &mut cell, options)?;
    Interval::from_sql_text(alloc, PgType::Interval, cell.as_slice(), options)
}
