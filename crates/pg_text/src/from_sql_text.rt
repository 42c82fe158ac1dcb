ghost use Rattle.std.specs.Prelude.{ℕ, List, Result};
ghost use Rattle.pg_text.specs.Cells.{IsRead};

use crate::format::interval_style::IntervalStyle;
use pg_interval::Interval;
use pg_types::{CellError, FormatOptions, PgType};
use std::alloc::Global;

/// A value that is read from a cell's text.
pub trait FromSqlText: Sized {
    ghost use Rattle.pg_types.specs.declared.pg_type.PgType.{PgType};
    ghost use Rattle.pg_types.specs.declared.error.CellError.{CellError};
    ghost use Rattle.pg_types.specs.declared.format.FormatOptions.{FormatOptions};

    // the value of a text in a column of a type, under these options, or why there is none
    ghost read: { PgType → List ℕ → FormatOptions → Result Self CellError };

    /// The value that this text stands for under the options. Only an error takes memory.
    fn from_sql_text(
        alloc: Global,
        ty: PgType,
        input: &[u8],
        format_options: &FormatOptions,
    ) -> Result<Self, CellError>
        ensures { IsRead (read ty input.now format_options.now) result };
}

impl FromSqlText for Interval {
    ghost use Rattle.pg_text.specs.Intervals.{read_text};

    ghost read = { λ _ input options. read_text input options };

    /// The interval that the text stands for in the options' style. `InvalidOptionValue`, with the
    /// style's text, comes first, where that text names none of the four styles. Next comes
    /// `NotUtf8`, then `Parse` with the reader's error.
    fn from_sql_text(
        alloc: Global,
        _ty: PgType,
        input: &[u8],
        format_options: &FormatOptions,
    ) -> Result<Interval, CellError> {
        let name = format_options.interval_style.as_str();
        match IntervalStyle::named(name) {
            Some(style) => style.read(input),
            None => Err(CellError::invalid_option(alloc, name)),
        }
    }
}

impl<T: FromSqlText> FromSqlText for Option<T> {
    ghost use Rattle.pg_text.specs.Cells.{read_if_some};

    ghost read = { λ ty input options. read_if_some (λ bytes. T.read ty bytes options) input };

    /// None for an empty input, and else what T reads.
    fn from_sql_text(
        alloc: Global,
        ty: PgType,
        input: &[u8],
        format_options: &FormatOptions,
    ) -> Result<Option<T>, CellError> {
        if input.is_empty() {
            return Ok(None);
        }
        match T::from_sql_text(alloc, ty, input, format_options) {
            Ok(value) => Ok(Some(value)),
            Err(error) => Err(error),
        }
    }
}
