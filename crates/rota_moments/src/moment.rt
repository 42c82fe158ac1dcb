//! Moments, and the moment after an interval.

ghost use Rattle.std.specs.Prelude.{◌≡◌, IfOk, IfSome};
ghost use Rattle.rota_moments.specs.Moments.{IsMoment, moment, after_days_and_time, moment_after, moment_at, instant, after_time};

use crate::calendar::{days_later, months_later};
use pg_interval::Interval;

/// How many microseconds a day has.
const DAY_MICROS: i64 = 86_400_000_000;

/// A day, and a time of it.
#[derive(Clone, Copy, Debug, PartialEq, Eq, PartialOrd, Ord)]
pub struct Moment {
    /// The days since 1970-01-01: from -719162, which is 0001-01-01, to 2932896, which is
    /// 9999-12-31.
    pub day: i32,
    /// The microseconds since the day began, below 86,400,000,000.
    pub micro: u64,
}

/// Which part of an interval leads out of the years 1 to 9999.
#[derive(Clone, Copy, Debug, PartialEq, Eq)]
pub enum RangeError {
    /// Its months.
    Months,
    /// Its days.
    Days,
    /// Its microseconds.
    Time,
}

impl Moment {
    /// The moment after an interval. Its months come first: they lead to the same day of a month, or
    /// to the last day of a month that has no such day. Then come its days, and then its
    /// microseconds, which may go over the end of a day. The first of the three that leads out of
    /// the years 1 to 9999 is refused.
    pub fn add(self, step: Interval) -> Result<Moment, RangeError>
        requires { IsMoment self }
        ensures value { result ≡ moment_after self step }
        ensures valid { IfOk result IsMoment }
    {
        let moved = months_later(self.day, step.months)?;
        days_and_time_later(moved, self.micro, step.days, step.microseconds)
    }
}

/// The moment `days` days and then `microseconds` microseconds later than this place in a day.
fn days_and_time_later(
    day: i32,
    micro: u64,
    days: i32,
    microseconds: i64,
) -> Result<Moment, RangeError>
    requires { IsMoment (moment day micro) }
    ensures value { result ≡ after_days_and_time (moment day micro) days microseconds }
    ensures valid { IfOk result IsMoment }
{
    let day = days_later(day, days)?;
    time_later(Moment { day, micro }, microseconds).ok_or(RangeError::Time)
}

/// The moment `microseconds` microseconds later, if its day is one of the years 1 to 9999.
fn time_later(start: Moment, microseconds: i64) -> Option<Moment>
    requires { IsMoment start }
    ensures value { result ≡ after_time start microseconds }
    ensures valid { IfSome result IsMoment }
{
    match instant_of(start).checked_add(microseconds) {
        Some(instant) => moment_at(instant),
        None => None,
    }
}

/// The microseconds since day 0 began.
fn instant_of(moment: Moment) -> i64
    requires { IsMoment moment }
    ensures { result ≡ instant moment }
{
    moment.day as i64 * DAY_MICROS + moment.micro as i64
}

/// The moment at an instant, if its day is one of the years 1 to 9999.
fn moment_at(instant: i64) -> Option<Moment>
    ensures value { result ≡ moment_at instant }
    ensures valid { IfSome result IsMoment }
{
    let day = instant.div_euclid(DAY_MICROS);
    if day < -719_162 || day > 2_932_896 {
        return None;
    }
    Some(Moment {
        day: day as i32,
        micro: instant.rem_euclid(DAY_MICROS) as u64,
    })
}
