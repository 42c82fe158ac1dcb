// Normal forms.

use crate::compared::Compared;
use pg_interval::{Interval, IntervalNorm, ParseError, Reason};

impl Compared for IntervalNorm {
    fn is_equal(&self, other: &IntervalNorm) -> bool {
        self == other
    }
}

#[test]
fn normal_forms_compare(rt: HostRuntime) {
    let zero = IntervalNorm::default();
    let mut day = IntervalNorm::default();
    day.days = 1;
    assert!(rt; zero.is_equal(&zero) && !zero.is_equal(&day));
}

/// Do the fields add up to this interval?
fn is_total(fields: IntervalNorm, interval: Interval) -> bool {
    match fields.try_into_interval() {
        Ok(total) => total == interval,
        Err(_) => false,
    }
}

/// Is the error an overflow of the time, or, if not `of_time`, of the years and months?
fn is_overflow(fields: IntervalNorm, of_time: bool) -> bool {
    match fields.try_into_interval() {
        Err(ParseError::InvalidTime(Reason::Overflow)) => of_time,
        Err(ParseError::InvalidYearMonth(Reason::Overflow)) => !of_time,
        _ => false,
    }
}

/// A normal form of these years, months and hours.
fn fields(years: i32, months: i32, hours: i64) -> IntervalNorm {
    let mut fields = IntervalNorm::default();
    fields.years = years;
    fields.months = months;
    fields.hours = hours;
    fields
}

fn are_months_exact() -> bool {
    let years = fields(178956971, 0, 0);
    is_overflow(years, false)
        && years.is_year_month_present()
        && !years.is_normal()
        && is_total(fields(178956971, -12, 0), Interval::new(2147483640, 0, 0))
}

fn are_hours_judged() -> bool {
    let hours = fields(0, 0, 2562047789);
    is_overflow(hours, true)
        && hours.is_time_interval_pos()
        && hours.is_time_present()
        && !hours.is_day_present()
}

fn is_least_split() -> bool {
    let least = Interval::new(i32::MIN, i32::MIN, i64::MIN);
    let parts = IntervalNorm {
        years: -178956970,
        months: -8,
        days: i32::MIN,
        hours: -2562047788,
        minutes: 0,
        seconds: -54,
        microseconds: -775808,
    };
    IntervalNorm::from(&least) == parts && is_total(parts, least)
}

#[test]
fn normal_forms(rt: HostRuntime) {
    let zero = IntervalNorm::default();
    assert!(rt; zero.is_zeroed() && zero.is_normal());
    assert!(rt; are_months_exact());
    assert!(rt; are_hours_judged());
    assert!(rt; is_least_split());
}
