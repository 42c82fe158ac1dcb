ghost use Rattle.std.specs.Prelude.{◌≡◌, ◌≤◌, ◌++◌, length, OnOk, OnErr};
ghost use Rattle.std.specs.Str.{IsUtf8};
ghost use Rattle.pg_interval.specs.Printed.{printed};
ghost use Rattle.pg_interval.specs.Reading.{reading, StandsForOnly};
ghost use Rattle.pg_text.specs.Cells.{IsRead};
ghost use Rattle.pg_text.specs.Intervals.{read_in};
ghost use Rattle.pg_text.specs.Words.{or_invalid, interval_style_of, printed_style};

use crate::format::words::{is_name, trimmed};
use bytes::BytesMut;
use pg_interval::{Interval, IntervalText, ParseError};
use pg_types::{CellError, INTERVAL_STYLE_POSTGRES};
use std::alloc::{AllocError, Global};

/// The name of the style of ISO 8601.
pub const INTERVAL_STYLE_ISO_8601: &str = "iso_8601";

/// The name of the style of the SQL standard.
pub const INTERVAL_STYLE_SQL_STANDARD: &str = "sql_standard";

/// The name of the verbose style of PostgreSQL.
pub const INTERVAL_STYLE_POSTGRES_VERBOSE: &str = "postgres_verbose";

/// How intervals are written as text (`IntervalStyle`).
#[derive(Clone, Copy, Debug, PartialEq, Eq)]
pub enum IntervalStyle {
    /// As `1 year 2 mons 3 days 04:05:06`.
    Postgres,
    /// As `P1Y2M3DT4H5M6S`.
    ISO8601,
    /// As `+1-2 +3 +4:05:06`.
    SQLStandard,
    /// As `@ 1 year 2 mons 3 days 4 hours 5 mins 6 secs`.
    PostgresVerbose,
}

impl Default for IntervalStyle {
    ghost use Rattle.pg_text.specs.declared.format.interval_style.IntervalStyle.{IntervalStyle};

    ghost is_default = { λ style. style ≡ IntervalStyle.Postgres };

    fn default() -> IntervalStyle {
        IntervalStyle::Postgres
    }
}

impl IntervalStyle {
    /// The style that a text names. Whitespace at its ends and the case of ASCII letters don't
    /// matter. A text that names none is the error `InvalidOptionValue`, which holds the text as it
    /// was given.
    pub fn try_from_text(alloc: Global, value: &str) -> Result<IntervalStyle, CellError>
        ensures { IsRead (or_invalid value.now (interval_style_of value.now)) result }
    {
        match IntervalStyle::named(value) {
            Some(option) => Ok(option),
            None => Err(CellError::invalid_option(alloc, value)),
        }
    }

    /// The value that a text names.
    pub(crate) fn named(value: &str) -> Option<IntervalStyle>
        ensures { result ≡ interval_style_of value.now }
    {
        let word = trimmed(value);
        if is_name(word, INTERVAL_STYLE_POSTGRES) {
            Some(IntervalStyle::Postgres)
        } else if is_name(word, INTERVAL_STYLE_ISO_8601) {
            Some(IntervalStyle::ISO8601)
        } else if is_name(word, INTERVAL_STYLE_SQL_STANDARD) {
            Some(IntervalStyle::SQLStandard)
        } else if is_name(word, INTERVAL_STYLE_POSTGRES_VERBOSE) {
            Some(IntervalStyle::PostgresVerbose)
        } else {
            None
        }
    }

    /// Appends the text of an interval in this style. It is made on the stack and appended at once;
    /// memory is taken only where the buffer grows. After an error nothing is appended.
    pub fn print(self, interval: &Interval, out: &mut BytesMut) -> Result<(), AllocError>
        ensures printed { OnOk result (out.new.items
            ≡ out.old.items ++ printed (printed_style self) interval.now) }
        // the text stands for this interval and for no other
        ensures stands { OnOk result (StandsForOnly (printed_style self)
            (printed (printed_style self) interval.now) interval.now) }
        ensures short { OnOk result (length (printed (printed_style self) interval.now) ≤ 96) }
        ensures utf8 { OnOk result (IsUtf8 (printed (printed_style self) interval.now)) }
        ensures err { OnErr result (out.new.items ≡ out.old.items) }
    {
        let text = self.text(interval);
        out.extend_from_slice(text.as_bytes())
    }

    /// The text of an interval in this style, on the stack.
    #[inline]
    pub fn text(self, interval: &Interval) -> IntervalText
        ensures printed { result ≡ printed (printed_style self) interval.now }
        // the text stands for this interval and for no other
        ensures stands { StandsForOnly (printed_style self) result interval.now }
        ensures short { length result ≤ 96 }
        ensures utf8 { IsUtf8 result }
    {
        match self {
            IntervalStyle::Postgres => interval.postgres_text(),
            IntervalStyle::ISO8601 => interval.iso_8601_text(),
            IntervalStyle::SQLStandard => interval.sql_text(),
            IntervalStyle::PostgresVerbose => interval.postgres_verbose_text(),
        }
    }

    /// The interval that a text cell stands for in this style. `NotUtf8` comes before `Parse`,
    /// which holds the reader's error. No memory is taken.
    #[tactic(auto, using(crate::proofs::Texts::read_as_text, crate::proofs::Texts::read_no_text))]
    pub fn read(self, input: &[u8]) -> Result<Interval, CellError>
        ensures { result ≡ read_in input.now (Ok self) }
    {
        match str::from_utf8(input) {
            Ok(text) => match self.interval_in(text) {
                Ok(interval) => Ok(interval),
                Err(error) => Err(CellError::Parse(error)),
            },
            Err(_) => Err(CellError::NotUtf8),
        }
    }

    /// The interval that a text stands for in this style.
    fn interval_in(self, text: &str) -> Result<Interval, ParseError>
        ensures { result ≡ reading (printed_style self) text.now }
    {
        match self {
            IntervalStyle::Postgres => Interval::from_postgres(text),
            IntervalStyle::ISO8601 => Interval::from_iso(text),
            IntervalStyle::SQLStandard => Interval::from_sql(text),
            IntervalStyle::PostgresVerbose => Interval::from_postgres_verbose(text),
        }
    }
}
