//! Days of the calendar, by the dates of `jiff`.

ghost use Rattle.std.specs.Prelude.{◌≡◌, IfOk, IfSome};
ghost use Rattle.std.specs.Option.{ok_or};
ghost use Rattle.rota_moments.specs.Moments.{IsDay, day_if_any, after_days, after_months};
ghost use Rattle.jiff.specs.Words.{epoch_day};

use crate::moment::RangeError;
use jiff::ToSpan;
use jiff::civil::Date;

/// More months than this lead out of the years 1 to 9999, from any day of them.
const MOST_MONTHS: u32 = 119_987;

/// More days than this lead out of these years, from any day of them.
const MOST_DAYS: u32 = 3_652_058;

/// The date of a day.
pub(crate) fn date_at(day: i32) -> Date
    requires { IsDay day }
    ensures { epoch_day result ≡ day }
{
    Date::from_plain(jiff_core::civil::Date::from_unix_epoch_day(day as i64).unwrap())
}

/// The day of a date, if it is one of the years 1 to 9999.
pub(crate) fn day_of(date: Date) -> Option<i32>
    ensures value { result ≡ day_if_any (epoch_day date) }
    ensures valid { IfSome result IsDay }
{
    let day = date.to_plain().to_unix_epoch_day();
    if day < -719_162 { None } else { Some(day) }
}

/// The day `months` months later: the same day of its month, or the last of a month that has no such
/// day.
pub(crate) fn months_later(day: i32, months: i32) -> Result<i32, RangeError>
    requires { IsDay day }
    ensures value { result ≡ ok_or (after_months day months) RangeError.Months }
    ensures valid { IfOk result IsDay }
{
    if months.unsigned_abs() > MOST_MONTHS {
        return Err(RangeError::Months);
    }
    match date_at(day).checked_add((months as i64).months()) {
        Ok(date) => day_of(date).ok_or(RangeError::Months),
        Err(_) => Err(RangeError::Months),
    }
}

/// The day `days` days later.
pub(crate) fn days_later(day: i32, days: i32) -> Result<i32, RangeError>
    requires { IsDay day }
    ensures value { result ≡ ok_or (after_days day days) RangeError.Days }
    ensures valid { IfOk result IsDay }
{
    if days.unsigned_abs() > MOST_DAYS {
        return Err(RangeError::Days);
    }
    match date_at(day).checked_add((days as i64).days()) {
        Ok(date) => day_of(date).ok_or(RangeError::Days),
        Err(_) => Err(RangeError::Days),
    }
}
