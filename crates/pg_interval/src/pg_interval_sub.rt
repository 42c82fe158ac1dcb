ghost use Rattle.std.specs.Prelude.{◌≡◌};
ghost use Rattle.std.specs.Option.{SomeIff};
ghost use Rattle.pg_interval.specs.Cell.{IsInterval};
ghost use Rattle.pg_interval.specs.Arithmetic.{interval_difference, day_time, TimeFits, without_years_and_months, SubtractsInTurn};

use crate::pg_interval::Interval;
use crate::pg_interval_add::{checked_time_in_microseconds, time_in_microseconds};
use std::ops;

impl Interval {
    /// The difference, number by number. `None` comes where one of the three differences leaves its
    /// type.
    pub fn checked_sub(self, other_interval: Interval) -> Option<Interval>
        ensures { let difference = interval_difference self other_interval in
            SomeIff result (IsInterval difference) difference }
    {
        let months = self.months.checked_sub(other_interval.months)?;
        let days = self.days.checked_sub(other_interval.days)?;
        let microseconds = self.microseconds.checked_sub(other_interval.microseconds)?;
        Some(Interval {
            months,
            days,
            microseconds,
        })
    }

    /// Subtracts days, hours, minutes and nanoseconds, whose part of a microsecond is rounded down
    /// before that.
    pub fn sub_day_time(self, days: i32, hours: i64, minutes: i64, nanoseconds: i64) -> Interval
        requires time { TimeFits hours minutes nanoseconds }
        requires difference { IsInterval
            (interval_difference self (day_time days hours minutes nanoseconds)) }
        ensures { result ≡ interval_difference self (day_time days hours minutes nanoseconds) }
    {
        self - Interval::new(0, days, time_in_microseconds(hours, minutes, nanoseconds))
    }

    /// Subtracts days, hours, minutes and nanoseconds, whose part of a microsecond is rounded down
    /// before that. `None` comes where a step leaves its type: the microseconds of the hours, those
    /// of the minutes, their sum, that with the nanoseconds, or a difference from the interval.
    pub fn checked_sub_day_time(
        self,
        days: i32,
        hours: i64,
        minutes: i64,
        nanoseconds: i64,
    ) -> Option<Interval>
        ensures { let difference = interval_difference self
            (day_time days hours minutes nanoseconds) in
            SomeIff result (TimeFits hours minutes nanoseconds × IsInterval difference) difference }
    {
        let microseconds = checked_time_in_microseconds(hours, minutes, nanoseconds)?;
        self.checked_sub(Interval::new(0, days, microseconds))
    }

    /// Subtracts the years, and then the months.
    pub fn sub_year_month(self, year: i32, months: i32) -> Interval
        requires { SubtractsInTurn self year months }
        ensures { result ≡ without_years_and_months self year months }
    {
        self - Interval::new(year * 12, 0, 0) - Interval::new(months, 0, 0)
    }

    /// Subtracts the years, and then the months. `None` comes where a step leaves its type: the
    /// months of the years, the difference without them, or that less the months.
    pub fn checked_sub_year_month(self, year: i32, months: i32) -> Option<Interval>
        ensures { SomeIff result (SubtractsInTurn self year months)
            (without_years_and_months self year months) }
    {
        let years_as_months = year.checked_mul(12)?;
        self.checked_sub(Interval::new(years_as_months, 0, 0))?
            .checked_sub(Interval::new(months, 0, 0))
    }
}

impl ops::Sub for Interval {
    type Output = Interval;

    ghost can_sub = { λ a b. IsInterval (interval_difference a b) };

    ghost sub_gives = { λ a b r. r ≡ interval_difference a b };

    /// The difference, number by number. Each of the three differences has to fit its type.
    fn sub(self, other_interval: Interval) -> Interval {
        Interval {
            months: self.months - other_interval.months,
            days: self.days - other_interval.days,
            microseconds: self.microseconds - other_interval.microseconds,
        }
    }
}
