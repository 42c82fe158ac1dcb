ghost use Rattle.std.specs.Prelude.{◌≡◌};
ghost use Rattle.std.specs.Option.{SomeIff};
ghost use Rattle.pg_interval.specs.Cell.{IsInterval};
ghost use Rattle.pg_interval.specs.Arithmetic.{interval_sum, day_time, time_amount, TimeFits, with_years_and_months, AddsInTurn, with_joined_months, AddsJoined};

use crate::pg_interval::Interval;
use std::ops;

impl Interval {
    /// The sum, number by number. `None` comes where one of the three sums leaves its type.
    pub fn checked_add(self, other_interval: Interval) -> Option<Interval>
        ensures { let sum = interval_sum self other_interval in
            SomeIff result (IsInterval sum) sum }
    {
        let months = self.months.checked_add(other_interval.months)?;
        let days = self.days.checked_add(other_interval.days)?;
        let microseconds = self.microseconds.checked_add(other_interval.microseconds)?;
        Some(Interval {
            months,
            days,
            microseconds,
        })
    }

    /// Adds days, hours, minutes and nanoseconds, whose part of a microsecond is rounded down.
    pub fn add_day_time(self, days: i32, hours: i64, minutes: i64, nanoseconds: i64) -> Interval
        requires time { TimeFits hours minutes nanoseconds }
        requires sum { IsInterval (interval_sum self (day_time days hours minutes nanoseconds)) }
        ensures { result ≡ interval_sum self (day_time days hours minutes nanoseconds) }
    {
        self + Interval::new(0, days, time_in_microseconds(hours, minutes, nanoseconds))
    }

    /// Adds days, hours, minutes and nanoseconds, whose part of a microsecond is rounded down.
    /// `None` comes where a step leaves its type: the microseconds of the hours, those of the
    /// minutes, their sum, that with the nanoseconds, or a sum with the interval.
    pub fn checked_add_day_time(
        self,
        days: i32,
        hours: i64,
        minutes: i64,
        nanoseconds: i64,
    ) -> Option<Interval>
        ensures { let sum = interval_sum self (day_time days hours minutes nanoseconds) in
            SomeIff result (TimeFits hours minutes nanoseconds × IsInterval sum) sum }
    {
        let microseconds = checked_time_in_microseconds(hours, minutes, nanoseconds)?;
        self.checked_add(Interval::new(0, days, microseconds))
    }

    /// Adds the years, and then the months.
    pub fn add_year_month(self, year: i32, months: i32) -> Interval
        requires { AddsInTurn self year months }
        ensures { result ≡ with_years_and_months self year months }
    {
        self + Interval::new(year * 12, 0, 0) + Interval::new(months, 0, 0)
    }

    /// Adds the sum of the years' months and the months. `None` comes where a step leaves its type:
    /// the months of the years, these with the months, or the sum with the interval.
    pub fn checked_add_year_month(self, year: i32, months: i32) -> Option<Interval>
        ensures { SomeIff result (AddsJoined self year months)
            (with_joined_months self year months) }
    {
        let years_as_months = year.checked_mul(12)?;
        let additional_months = years_as_months.checked_add(months)?;
        self.checked_add(Interval::new(additional_months, 0, 0))
    }
}

impl ops::Add for Interval {
    type Output = Interval;

    ghost can_add = { λ a b. IsInterval (interval_sum a b) };

    ghost add_gives = { λ a b r. r ≡ interval_sum a b };

    /// The sum, number by number. Each of the three sums has to fit its type.
    fn add(self, other_interval: Interval) -> Interval {
        Interval {
            months: self.months + other_interval.months,
            days: self.days + other_interval.days,
            microseconds: self.microseconds + other_interval.microseconds,
        }
    }
}

/// The microseconds of a time whose steps fit.
pub fn time_in_microseconds(hours: i64, minutes: i64, nanoseconds: i64) -> i64
    requires { TimeFits hours minutes nanoseconds }
    ensures { result ≡ time_amount hours minutes nanoseconds }
{
    let hours_as_micro = hours * 3_600_000_000;
    let minutes_as_micro = minutes * 60_000_000;
    hours_as_micro + minutes_as_micro + nanoseconds.div_euclid(1000)
}

/// The microseconds of a time, or `None` where a step leaves `i64`.
pub fn checked_time_in_microseconds(hours: i64, minutes: i64, nanoseconds: i64) -> Option<i64>
    ensures { SomeIff result (TimeFits hours minutes nanoseconds)
        (time_amount hours minutes nanoseconds) }
{
    let hours_as_micro = hours.checked_mul(3_600_000_000)?;
    let minutes_as_micro = minutes.checked_mul(60_000_000)?;
    hours_as_micro
        .checked_add(minutes_as_micro)?
        .checked_add(nanoseconds.div_euclid(1000))
}
