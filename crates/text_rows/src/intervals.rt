// Rows on interval texts:
//   read|STYLE|COUNT|PIECE   what the text of COUNT times PIECE stands for: months, days and
//       microseconds, or the refusal
//   print|MONTHS|DAYS|MICROSECONDS   the text in each style, and whether each is read back as the
//       same interval, and the normal form prints the first one too
//   error|PART|REASON   what a refusal displays
use pg_interval::{DecimalError, IntError, Interval, IntervalNorm, ParseError, Reason};
use std::alloc::{AllocError, Global};
use std::io;

/// Prints the answer to a row on an interval's text.
pub(crate) fn answer(rt: &HostRuntime, word: &str, fields: &str) -> io::Result<()> {
    let answer = answer_of(rt.alloc(), word, fields)?;
    println!(rt; "{}", answer.as_str())
}

/// The row's answer.
fn answer_of(alloc: Global, word: &str, fields: &str) -> Result<String, AllocError> {
    let Some((first, rest)) = fields.split_once('|') else {
        return String::from_str(alloc, "no such row");
    };
    if word == "error" {
        return error_text(alloc, first, rest);
    }
    let Some((second, third)) = rest.split_once('|') else {
        return String::from_str(alloc, "no such row");
    };
    if word == "read" {
        read(alloc, first, second, third)
    } else {
        printed(alloc, first, second, third)
    }
}

/// What the piece, `count` times, stands for.
fn read(alloc: Global, style: &str, count: &str, piece: &str) -> Result<String, AllocError> {
    let mut text = String::new(alloc);
    for _ in 0..count.parse::<u32>().unwrap_or(0) {
        text.push_str(piece)?;
    }
    match read_in(style, text.as_str()) {
        Ok(interval) => shown(alloc, interval),
        Err(error) => error.to_string(alloc),
    }
}

/// The answer of the style's reader.
fn read_in(style: &str, text: &str) -> Result<Interval, ParseError> {
    if style == "postgres" {
        Interval::from_postgres(text)
    } else if style == "verbose" {
        Interval::from_postgres_verbose(text)
    } else if style == "iso" {
        Interval::from_iso(text)
    } else {
        Interval::from_sql(text)
    }
}

/// The interval's three numbers.
fn shown(alloc: Global, interval: Interval) -> Result<String, AllocError> {
    let Interval {
        months,
        days,
        microseconds,
    } = interval;
    format!(in alloc; "{months} {days} {microseconds}")
}

/// The interval's text in each style, and whether each is read back, and the normal form prints the
/// first one too.
fn printed(
    alloc: Global,
    months: &str,
    days: &str,
    microseconds: &str,
) -> Result<String, AllocError> {
    let interval = Interval::new(
        months.parse::<i32>().unwrap_or(0),
        days.parse::<i32>().unwrap_or(0),
        microseconds.parse::<i64>().unwrap_or(0),
    );
    let mut told = String::new(alloc);
    let mut same = is_printed_by_form(alloc, interval)?;
    for style in ["postgres", "verbose", "iso", "sql"] {
        same &= put_printed(alloc, interval, style, &mut told)?;
    }
    told.push_str(if same { "read back" } else { "lost" })?;
    Ok(told)
}

/// Appends the interval's text in the style and a bar, and tells whether the text is read back.
fn put_printed(
    alloc: Global,
    interval: Interval,
    style: &str,
    told: &mut String,
) -> Result<bool, AllocError> {
    let text = text_in(alloc, style, interval)?;
    told.push_str(text.as_str())?;
    told.push('|')?;
    Ok(is_read(interval, read_in(style, text.as_str())))
}

/// The interval's text in the style.
fn text_in(alloc: Global, style: &str, interval: Interval) -> Result<String, AllocError> {
    if style == "postgres" {
        interval.to_postgres(alloc)
    } else if style == "verbose" {
        interval.to_postgres_verbose(alloc)
    } else if style == "iso" {
        interval.to_iso_8601(alloc)
    } else {
        interval.to_sql(alloc)
    }
}

/// Does the interval's normal form print the interval's text in the style `postgres`?
fn is_printed_by_form(alloc: Global, interval: Interval) -> Result<bool, AllocError> {
    let text = interval.to_postgres(alloc)?;
    let other = IntervalNorm::from(&interval).into_postgres(alloc)?;
    Ok(other.as_str() == text.as_str())
}

/// Was this interval read?
fn is_read(interval: Interval, answer: Result<Interval, ParseError>) -> bool {
    match answer {
        Ok(other) => other == interval,
        Err(_) => false,
    }
}

/// What the refusal displays.
fn error_text(alloc: Global, part: &str, reason: &str) -> Result<String, AllocError> {
    let error = if part == "integer" {
        ParseError::from(int_error(reason))
    } else if part == "float" {
        ParseError::from(decimal_error(reason))
    } else if part == "year_month" {
        ParseError::from_year_month(reason_of(reason))
    } else if part == "time" {
        ParseError::from_time(reason_of(reason))
    } else {
        ParseError::from_invalid_interval(reason_of(reason))
    };
    error.to_string(alloc)
}

/// Why a text is no whole number.
fn int_error(reason: &str) -> IntError {
    if reason == "empty" {
        IntError::Empty
    } else if reason == "invalid_digit" {
        IntError::InvalidDigit
    } else {
        IntError::OutOfRange
    }
}

/// Why a text is no decimal.
fn decimal_error(reason: &str) -> DecimalError {
    if reason == "empty" {
        DecimalError::Empty
    } else if reason == "malformed" {
        DecimalError::Malformed
    } else if reason == "too_many_digits" {
        DecimalError::TooManyDigits
    } else {
        DecimalError::OutOfRange
    }
}

/// Why a text or a sum is no interval.
fn reason_of(reason: &str) -> Reason {
    if reason == "too_long" {
        Reason::TooLong
    } else if reason == "shape" {
        Reason::Shape
    } else {
        Reason::Overflow
    }
}
