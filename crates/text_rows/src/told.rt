// How values are printed. Each ends its line, but `show_error` doesn't.
use pg_interval::Interval;
use pg_text::{CellError, FormatOptions};
use std::fmt::Debug;
use std::io;

/// The options, field by field.
pub(crate) fn show_options(rt: &HostRuntime, options: &FormatOptions) -> io::Result<()> {
    println!(rt;
        "{}|{}|{}|{}|{}",
        options.date_style.as_str(),
        options.interval_style.as_str(),
        options.bytea_output.as_str(),
        options.time_zone.as_str(),
        options.extra_float_digits
    )
}

/// The error with what it holds.
pub(crate) fn show_error(rt: &HostRuntime, error: &CellError) -> io::Result<()> {
    match error {
        CellError::Parse(reason) => print!(rt; "Parse({reason})"),
        CellError::InvalidOptionValue(value) => {
            print!(rt; "InvalidOptionValue({})", value.as_str())
        }
        CellError::WrongType => rt.print("WrongType"),
        CellError::ShortCell => rt.print("ShortCell"),
        CellError::NotUtf8 => rt.print("NotUtf8"),
        CellError::DurationOverflow => rt.print("DurationOverflow"),
        CellError::NoMemory => rt.print("NoMemory"),
    }
}

/// The error, and the end of the line.
fn show_refusal(rt: &HostRuntime, error: CellError) -> io::Result<()> {
    show_error(rt, &error)?;
    rt.println("")
}

/// The name, or the error.
pub(crate) fn show_named<T: Debug + Copy>(
    rt: &HostRuntime,
    named: Result<T, CellError>,
) -> io::Result<()> {
    match named {
        Ok(name) => println!(rt; "{name:?}"),
        Err(error) => show_refusal(rt, error),
    }
}

/// The numbers of an interval, or the error.
pub(crate) fn show_interval(
    rt: &HostRuntime,
    answer: Result<Interval, CellError>,
) -> io::Result<()> {
    match answer {
        Ok(
            Interval {
                months,
                days,
                microseconds,
            },
        ) => println!(rt; "{months} {days} {microseconds}"),
        Err(error) => show_refusal(rt, error),
    }
}

/// The same where there may be none.
pub(crate) fn show_some(
    rt: &HostRuntime,
    answer: Result<Option<Interval>, CellError>,
) -> io::Result<()> {
    match answer {
        Ok(Some(interval)) => show_interval(rt, Ok(interval)),
        Ok(None) => rt.println("None"),
        Err(error) => show_refusal(rt, error),
    }
}
