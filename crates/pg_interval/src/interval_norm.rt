ghost use Rattle.std.specs.Prelude.{◌≡◌, ◌≢◌, ◌↔◌, ◌⊎◌, pos, ◌<ℤ◌, [], ◌∷◌, All, Any, IsTrue, IfOk, IsOk, IsErrOf};
ghost use Rattle.pg_interval.specs.Cell.{IsInterval};
ghost use Rattle.pg_interval.specs.NormalForm.{normal_form, total_seconds, exact_total, MonthsFit, MicrosecondsFit, IsNormal, HaveOneSign, time_fields, all_fields};

use crate::pg_interval::Interval;
use interval_errors::{ParseError, Reason};

/// An interval in years, months, days, hours, minutes, seconds and microseconds.
#[derive(Clone, Copy, Debug, PartialEq, Eq)]
pub struct IntervalNorm {
    pub years: i32,
    pub months: i32,
    pub days: i32,
    pub hours: i64,
    pub minutes: i64,
    pub seconds: i64,
    pub microseconds: i64,
}

impl From<&Interval> for IntervalNorm {
    ghost from_gives = { λ i n. n ≡ normal_form i.now };

    /// The interval's normal form: its months split into years and months, and its microseconds
    /// into hours, minutes, seconds and microseconds, each quotient truncated toward zero.
    fn from(val: &Interval) -> IntervalNorm
        ensures form { result ≡ normal_form val.now }
        ensures date_signs { HaveOneSign (result.years ∷ result.months ∷ []) }
        ensures time_signs { HaveOneSign (time_fields result) }
    {
        IntervalNorm {
            years: val.months / 12,
            months: val.months % 12,
            days: val.days,
            hours: val.microseconds / 3_600_000_000,
            minutes: val.microseconds / 60_000_000 % 60,
            seconds: val.microseconds / 1_000_000 % 60,
            microseconds: val.microseconds % 1_000_000,
        }
    }
}

impl IntervalNorm {
    /// The interval that the fields add up to, by exact sums. `InvalidYearMonth(Overflow)` comes
    /// where the months leave `i32`, else `InvalidTime(Overflow)` where the microseconds leave
    /// `i64`.
    pub fn try_into_interval(self) -> Result<Interval, ParseError>
        ensures succeeds { IsOk result ↔ IsInterval (exact_total self) }
        ensures value { IfOk result (λ i. i ≡ exact_total self) }
        ensures year_month { IsErrOf result (ParseError.InvalidYearMonth Reason.Overflow)
            ↔ ¬ (MonthsFit self) }
        ensures time { IsErrOf result (ParseError.InvalidTime Reason.Overflow)
            ↔ (MonthsFit self × ¬ (MicrosecondsFit self)) }

        // so an interval's normal form gives that interval again
        ensures inverse { (i : Interval) → IsInterval i → self ≡ normal_form i → result ≡ Ok i }
    {
        let Ok(months) = i32::try_from(self.total_months()) else {
            return Err(ParseError::from_year_month(Reason::Overflow));
        };
        let Ok(microseconds) = i64::try_from(self.total_microseconds()) else {
            return Err(ParseError::from_time(Reason::Overflow));
        };
        Ok(Interval {
            months,
            days: self.days,
            microseconds,
        })
    }

    /// All fields zero.
    pub fn default() -> IntervalNorm
        ensures { All (λ z. z ≡ pos 0) (all_fields result) }
    {
        IntervalNorm {
            years: 0,
            months: 0,
            days: 0,
            hours: 0,
            minutes: 0,
            seconds: 0,
            microseconds: 0,
        }
    }

    /// Is this the normal form of some interval?
    pub fn is_normal(&self) -> bool
        ensures { IsTrue result ↔ IsNormal self.now }
    {
        match self.try_into_interval() {
            Ok(interval) => IntervalNorm::from(&interval) == *self,
            Err(_) => false,
        }
    }

    /// Are all fields zero?
    pub fn is_zeroed(&self) -> bool
        ensures { IsTrue result ↔ All (λ z. z ≡ pos 0) (all_fields self.now) }
    {
        self.years == 0
            && self.months == 0
            && self.days == 0
            && self.hours == 0
            && self.minutes == 0
            && self.seconds == 0
            && self.microseconds == 0
    }

    /// Are the years or the months not zero?
    pub fn is_year_month_present(&self) -> bool
        ensures { IsTrue result ↔ ((self.now.years ≢ pos 0) ⊎ (self.now.months ≢ pos 0)) }
    {
        self.years != 0 || self.months != 0
    }

    /// Are the days not zero?
    pub fn is_day_present(&self) -> bool
        ensures { IsTrue result ↔ (self.now.days ≢ pos 0) }
    {
        self.days != 0
    }

    /// Is some field of the time above zero?
    pub fn is_time_interval_pos(&self) -> bool
        ensures { IsTrue result ↔ Any (λ z. pos 0 <ℤ z) (time_fields self.now) }
    {
        is_any_positive(&self.time_fields())
    }

    /// Is some field of the time not zero?
    pub fn is_time_present(&self) -> bool
        ensures { IsTrue result ↔ Any (λ z. z ≢ pos 0) (time_fields self.now) }
    {
        is_any_present(&self.time_fields())
    }

    /// The fields of the time, hours first.
    fn time_fields(self) -> [i64; 4]
        ensures { result ≡ time_fields self }
    {
        [self.hours, self.minutes, self.seconds, self.microseconds]
    }

    /// The months that the years and months add up to.
    fn total_months(self) -> i128
        ensures { result ≡ (exact_total self).months }
    {
        i128::from(self.years) * 12 + i128::from(self.months)
    }

    /// The seconds in the hours, minutes and seconds.
    fn total_seconds(self) -> i128
        ensures { result ≡ total_seconds self }
    {
        (i128::from(self.hours) * 60 + i128::from(self.minutes)) * 60 + i128::from(self.seconds)
    }

    /// The microseconds that the fields of the time add up to.
    fn total_microseconds(self) -> i128
        ensures { result ≡ (exact_total self).microseconds }
    {
        self.total_seconds() * 1_000_000 + i128::from(self.microseconds)
    }
}

fn is_any_positive(fields: &[i64]) -> bool
    ensures { IsTrue result ↔ Any (λ z. pos 0 <ℤ z) fields.now }
{
    fields.iter().any(|field| *field > 0)
}

fn is_any_present(fields: &[i64]) -> bool
    ensures { IsTrue result ↔ Any (λ z. z ≢ pos 0) fields.now }
{
    fields.iter().any(|field| *field != 0)
}
