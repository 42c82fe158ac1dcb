ghost use Rattle.std.specs.Prelude.{◌≡◌, IfOk, string_bytes};
ghost use Rattle.pg_text.specs.Cells.{IsRead};
ghost use Rattle.pg_text.specs.Dates.{display_of, order_of, around_comma, display_before, order_behind, display_in, order_in, date_format, full_format, full_zone_format, zone_format, time_zone_format};
ghost use Rattle.pg_text.specs.Words.{or_invalid, date_order_of, date_display_of};

use crate::format::words::{is_name, trimmed};
use pg_types::CellError;
use std::alloc::{AllocError, Global};

/// The name of the order day, month, year.
pub const DATE_STYLE_ORDER_DMY: &str = "dmy";

/// The name of the order month, day, year.
pub const DATE_STYLE_ORDER_MDY: &str = "mdy";

/// The name of the order year, month, day.
pub const DATE_STYLE_ORDER_YMD: &str = "ymd";

/// The name of the display style ISO.
pub const DATE_STYLE_DISPLAY_ISO: &str = "iso";

/// The name of the display style SQL.
pub const DATE_STYLE_DISPLAY_SQL: &str = "sql";

/// The name of the display style German.
pub const DATE_STYLE_DISPLAY_GERMAN: &str = "german";

/// The name of the display style Postgres.
pub const DATE_STYLE_DISPLAY_POSTGRES: &str = "postgres";

/// The order of day, month and year in a date.
#[derive(Clone, Copy, Debug, PartialEq, Eq)]
pub enum DateStyleOrder {
    DMY,
    MDY,
    YMD,
}

impl Default for DateStyleOrder {
    ghost use Rattle.pg_text.specs.declared.format.date_style.DateStyleOrder.{DateStyleOrder};

    ghost is_default = { λ order. order ≡ DateStyleOrder.YMD };

    fn default() -> DateStyleOrder {
        DateStyleOrder::YMD
    }
}

impl DateStyleOrder {
    /// The order that a text names. Whitespace at its ends and the case of ASCII letters don't
    /// matter. A text that names none is the error `InvalidOptionValue`, which holds the text as it
    /// was given.
    pub fn try_from_text(alloc: Global, value: &str) -> Result<DateStyleOrder, CellError>
        ensures { IsRead (or_invalid value.now (date_order_of value.now)) result }
    {
        match DateStyleOrder::named(value) {
            Some(option) => Ok(option),
            None => Err(CellError::invalid_option(alloc, value)),
        }
    }

    /// The value that a text names.
    pub(crate) fn named(value: &str) -> Option<DateStyleOrder>
        ensures { result ≡ date_order_of value.now }
    {
        let word = trimmed(value);
        if is_name(word, DATE_STYLE_ORDER_DMY) {
            Some(DateStyleOrder::DMY)
        } else if is_name(word, DATE_STYLE_ORDER_MDY) {
            Some(DateStyleOrder::MDY)
        } else if is_name(word, DATE_STYLE_ORDER_YMD) {
            Some(DateStyleOrder::YMD)
        } else {
            None
        }
    }
}

/// How dates are written as text.
#[derive(Clone, Copy, Debug, PartialEq, Eq)]
pub enum DateStyleDisplayStyle {
    /// As `1997-12-17 07:37:16.000000`.
    ISO,
    /// As `12/17/1997 07:37:16.000000`.
    SQL,
    /// As `17.12.1997 07:37:16.000000`.
    German,
    /// As `Wed Dec 17 07:37:16.000000 1997`.
    Postgres,
}

impl Default for DateStyleDisplayStyle {
    ghost use Rattle.pg_text.specs.declared.format.date_style.DateStyleDisplayStyle.{DateStyleDisplayStyle};

    ghost is_default = { λ style. style ≡ DateStyleDisplayStyle.ISO };

    fn default() -> DateStyleDisplayStyle {
        DateStyleDisplayStyle::ISO
    }
}

impl DateStyleDisplayStyle {
    /// The style that a text names. Whitespace at its ends and the case of ASCII letters don't
    /// matter. A text that names none is the error `InvalidOptionValue`, which holds the text as it
    /// was given.
    pub fn try_from_text(alloc: Global, value: &str) -> Result<DateStyleDisplayStyle, CellError>
        ensures { IsRead (or_invalid value.now (date_display_of value.now)) result }
    {
        match DateStyleDisplayStyle::named(value) {
            Some(option) => Ok(option),
            None => Err(CellError::invalid_option(alloc, value)),
        }
    }

    /// The value that a text names.
    pub(crate) fn named(value: &str) -> Option<DateStyleDisplayStyle>
        ensures { result ≡ date_display_of value.now }
    {
        let word = trimmed(value);
        if is_name(word, DATE_STYLE_DISPLAY_ISO) {
            Some(DateStyleDisplayStyle::ISO)
        } else if is_name(word, DATE_STYLE_DISPLAY_SQL) {
            Some(DateStyleDisplayStyle::SQL)
        } else if is_name(word, DATE_STYLE_DISPLAY_GERMAN) {
            Some(DateStyleDisplayStyle::German)
        } else if is_name(word, DATE_STYLE_DISPLAY_POSTGRES) {
            Some(DateStyleDisplayStyle::Postgres)
        } else {
            None
        }
    }
}

/// How dates are written as text, and in which order (`DateStyle`).
#[derive(Debug, Drop)]
pub struct DateStyle {
    style: DateStyleDisplayStyle,
    order: Option<DateStyleOrder>,
}

impl DateStyle {
    /// The style and the order of a `DateStyle` text, which is split at its first `, `. Without a
    /// `, ` there is no order. A style that isn't known is ISO, and an order that isn't known YMD.
    pub fn new(config: &str) -> DateStyle
        ensures style { display_of result ≡ display_before config.now (around_comma config.now) }
        ensures order { order_of result ≡ order_behind (around_comma config.now) }
    {
        match config.split_once(", ") {
            None => DateStyle {
                style: DateStyleDisplayStyle::in_text(config),
                order: None,
            },
            Some((style, order)) => DateStyle {
                style: DateStyleDisplayStyle::in_text(style),
                order: Some(DateStyleOrder::in_text(order)),
            },
        }
    }

    /// The pattern of a date and a time, in the notation of `strftime`.
    pub fn full_format_str(&self) -> &'static str
        ensures { result.now ≡ full_format (display_of self.now) (order_of self.now) }
    {
        match (self.style, self.order) {
            (DateStyleDisplayStyle::SQL, Some(DateStyleOrder::DMY)) => "%d/%m/%Y %H:%M:%S%.6f",
            (DateStyleDisplayStyle::SQL, _) => "%m/%d/%Y %H:%M:%S%.6f",
            (DateStyleDisplayStyle::ISO, _) => "%Y-%m-%d %H:%M:%S%.6f",
            (DateStyleDisplayStyle::Postgres, Some(DateStyleOrder::DMY)) =>
                "%a %e %b %H:%M:%S%.6f %Y",
            (DateStyleDisplayStyle::Postgres, _) => "%a %b %e %H:%M:%S%.6f %Y",
            (DateStyleDisplayStyle::German, _) => "%d.%m.%Y %H:%M:%S%.6f",
        }
    }

    /// The pattern of a date, a time and a time zone.
    pub fn full_tz_format_str(&self, alloc: Global) -> Result<String, AllocError>
        ensures { IfOk result (λ text. string_bytes text
            ≡ full_zone_format (display_of self.now) (order_of self.now)) }
    {
        let mut text = String::from_str(alloc, self.full_format_str())?;
        text.push_str(self.zone_format_str())?;
        Ok(text)
    }

    /// The pattern of a date, a time and a time zone, as `full_tz_format_str` gives it.
    pub fn full_tz_format_smolstr(&self, alloc: Global) -> Result<String, AllocError>
        ensures { IfOk result (λ text. string_bytes text
            ≡ full_zone_format (display_of self.now) (order_of self.now)) }
    {
        self.full_tz_format_str(alloc)
    }

    /// The pattern of a time and a time zone.
    pub fn time_tz_format_str(&self) -> &'static str
        ensures { result.now ≡ time_zone_format (display_of self.now) }
    {
        match self.style {
            DateStyleDisplayStyle::ISO => "%H:%M:%S%.6f%:::z",
            _ => "%H:%M:%S%.6f %Z",
        }
    }

    /// The pattern of a date.
    pub fn date_format_str(&self) -> &'static str
        ensures { result.now ≡ date_format (display_of self.now) (order_of self.now) }
    {
        match (self.style, self.order) {
            (DateStyleDisplayStyle::SQL, Some(DateStyleOrder::DMY)) => "%d/%m/%Y",
            (DateStyleDisplayStyle::SQL, _) => "%m/%d/%Y",
            (DateStyleDisplayStyle::ISO, _) => "%Y-%m-%d",
            (DateStyleDisplayStyle::Postgres, Some(DateStyleOrder::DMY)) => "%d-%m-%Y",
            (DateStyleDisplayStyle::Postgres, _) => "%m-%d-%Y",
            (DateStyleDisplayStyle::German, _) => "%d.%m.%Y",
        }
    }

    /// The pattern of a time zone after a date and a time.
    fn zone_format_str(&self) -> &'static str
        ensures { result.now ≡ zone_format (display_of self.now) }
    {
        match self.style {
            DateStyleDisplayStyle::ISO => "%:::z",
            _ => " %Z",
        }
    }
}

impl DateStyleDisplayStyle {
    /// The style that a text names, or else ISO.
    fn in_text(text: &str) -> DateStyleDisplayStyle
        ensures { result ≡ display_in text.now }
    {
        match DateStyleDisplayStyle::named(text) {
            Some(style) => style,
            None => DateStyleDisplayStyle::ISO,
        }
    }
}

impl DateStyleOrder {
    /// The order that a text names, or else YMD.
    fn in_text(text: &str) -> DateStyleOrder
        ensures { result ≡ order_in text.now }
    {
        match DateStyleOrder::named(text) {
            Some(order) => order,
            None => DateStyleOrder::YMD,
        }
    }
}
