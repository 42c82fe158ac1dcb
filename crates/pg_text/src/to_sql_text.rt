ghost use Rattle.std.specs.Prelude.{OnOk};
ghost use Rattle.pg_text.specs.Cells.{Cell, IsAnswer, WritesCell, AtCell, bytes_of};

use crate::format::interval_style::IntervalStyle;
use crate::to_sql::IsNull;
use bytes::BytesMut;
use jiff::SignedDuration;
use pg_interval::Interval;
use pg_types::{CellError, FormatOptions, PgType};
use std::alloc::Global;

/// A value that writes its cell as text.
pub trait ToSqlText {
    ghost use Rattle.pg_types.specs.declared.pg_type.PgType.{PgType};
    ghost use Rattle.pg_types.specs.declared.format.FormatOptions.{FormatOptions};

    // the cell of a value in a column of a type, under these options
    ghost text: { Self → PgType → FormatOptions → Cell };

    /// Appends the value's text under the options, at most 32,000 bytes. A null has none. After an
    /// error nothing is appended.
    fn to_sql_text(
        &self,
        alloc: Global,
        ty: PgType,
        out: &mut BytesMut,
        format_options: &FormatOptions,
    ) -> Result<IsNull, CellError>
        ensures answer { IsAnswer (text self.now ty format_options.now) result }
        ensures written { WritesCell (text self.now ty format_options.now) result
            out.old.items out.new.items };
}

impl ToSqlText for Interval {
    ghost use Rattle.std.specs.Str.{IsUtf8};
    ghost use Rattle.pg_text.specs.Intervals.{interval_text, style_under, StandsIn};

    ghost text = { λ interval _ options. interval_text interval options };

    /// Appends the interval's text in the options' style. `InvalidOptionValue`, with the style's
    /// text, comes where that names none of the four.
    fn to_sql_text(
        &self,
        alloc: Global,
        _ty: PgType,
        out: &mut BytesMut,
        format_options: &FormatOptions,
    ) -> Result<IsNull, CellError>
        ensures answer { IsAnswer (interval_text self.now format_options.now) result }
        ensures written { WritesCell (interval_text self.now format_options.now) result
            out.old.items out.new.items }
        // so the text stands for this interval and for no other
        ensures stands { OnOk result (AtCell (interval_text self.now format_options.now)
            (λ cell. StandsIn (style_under format_options.now) (bytes_of cell) self.now)) }
        ensures utf8 { OnOk result (AtCell (interval_text self.now format_options.now)
            (λ cell. IsUtf8 (bytes_of cell))) }
    {
        let name = format_options.interval_style.as_str();
        match IntervalStyle::named(name) {
            Some(style) => {
                style.print(self, out)?;
                Ok(IsNull::No)
            }
            None => Err(CellError::invalid_option(alloc, name)),
        }
    }
}

impl ToSqlText for SignedDuration {
    ghost use Rattle.jiff.specs.Words.{signed_nanos};
    ghost use Rattle.pg_text.specs.Intervals.{duration_text};

    ghost text = { λ duration _ options. duration_text (signed_nanos duration) options };

    /// Appends the text of the duration's interval. `DurationOverflow` comes where there is none,
    /// and before the style is looked at.
    fn to_sql_text(
        &self,
        alloc: Global,
        ty: PgType,
        out: &mut BytesMut,
        format_options: &FormatOptions,
    ) -> Result<IsNull, CellError> {
        match Interval::from_duration(*self) {
            Some(interval) => interval.to_sql_text(alloc, ty, out, format_options),
            None => Err(CellError::DurationOverflow),
        }
    }
}

impl<T: ToSqlText> ToSqlText for &T {
    ghost text = { λ value ty options. T.text value.now ty options };

    fn to_sql_text(
        &self,
        alloc: Global,
        ty: PgType,
        out: &mut BytesMut,
        format_options: &FormatOptions,
    ) -> Result<IsNull, CellError> {
        (**self).to_sql_text(alloc, ty, out, format_options)
    }
}

impl<T: ToSqlText> ToSqlText for Option<T> {
    ghost use Rattle.pg_text.specs.Cells.{cell_if_some};

    ghost text = { λ value ty options. cell_if_some (λ x. T.text x ty options) value };

    fn to_sql_text(
        &self,
        alloc: Global,
        ty: PgType,
        out: &mut BytesMut,
        format_options: &FormatOptions,
    ) -> Result<IsNull, CellError> {
        match self {
            Some(value) => value.to_sql_text(alloc, ty, out, format_options),
            None => Ok(IsNull::Yes),
        }
    }
}
