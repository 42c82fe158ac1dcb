// The four styles in which PostgreSQL prints an interval (`intervalstyle`).
ghost use Rattle.std.specs.Prelude.{◌≡◌, IfOk, string_bytes, not};
ghost use Rattle.pg_interval.specs.Cell.{IsInterval};
ghost use Rattle.pg_interval.specs.NormalForm.{normal_form, IsNormal};
ghost use Rattle.pg_interval.specs.Printed.{is_all_zero, is_year_month_zero, is_zero, is_time_zero, is_time_positive, is_time_negative, is_second_zero, is_second_negative, postgres_text, verbose_text, iso_text, sql_text, printed, IsPrintedOnlyFor};
ghost use Rattle.pg_interval.specs.TextOf.{IsTextOf, IsPrintedAs};
ghost use Rattle.pg_interval.specs.Reading.{StandsForOnly, Postgres, PostgresVerbose, Iso8601, SqlStandard};

mod back;
mod digits;
mod iso_8601;
mod parts;
mod postgres;
mod sql;
pub mod text;
mod verbose;

use crate::interval_norm::IntervalNorm;
use crate::pg_interval::Interval;
use iso_8601::put_iso;
use postgres::put_postgres;
use sql::put_sql;
use std::alloc::{AllocError, Global};
use text::IntervalText;
use verbose::put_verbose;

/// Room for the longest text of all styles.
const LONGEST: usize = 96;

impl Interval {
    /// The text in the style `postgres`, as `1 year 2 mons 3 days 04:05:06.700000`. It takes no
    /// memory.
    #[inline(never)]
    pub fn postgres_text(&self) -> IntervalText
        ensures { IsTextOf Postgres self.now result }
    {
        let mut bytes = [0; LONGEST];
        let start = put_postgres(*self, &mut bytes);
        IntervalText::new(bytes, start)
    }

    /// The text in the style `postgres_verbose`, as `@ 1 year 2 mons 3 days 4 hours 5 mins 6.7
    /// secs`. It takes no memory.
    #[inline(never)]
    pub fn postgres_verbose_text(&self) -> IntervalText
        ensures { IsTextOf PostgresVerbose self.now result }
    {
        self.in_normal_form().postgres_verbose_text()
    }

    /// The text in the style `iso_8601`, as `P1Y2M3DT4H5M6.700000S`. It takes no memory.
    #[inline(never)]
    pub fn iso_8601_text(&self) -> IntervalText
        ensures { IsTextOf Iso8601 self.now result }
    {
        self.in_normal_form().iso_8601_text()
    }

    /// The text in the style `sql_standard`, as `+1-2 +3 +4:05:06.700000`. It takes no memory.
    #[inline(never)]
    pub fn sql_text(&self) -> IntervalText
        ensures { IsTextOf SqlStandard self.now result }
    {
        self.in_normal_form().sql_text()
    }

    /// The text in the style `postgres`, as `1 year 2 mons 3 days 04:05:06.700000`.
    pub fn to_postgres(&self, alloc: Global) -> Result<String, AllocError>
        ensures printed { IfOk result (λ text. string_bytes text ≡ printed Postgres self.now) }
        // the text stands for this interval and for no other, and no other prints as it does
        ensures stands { IfOk result (λ text. StandsForOnly Postgres (string_bytes text) self.now) }
        ensures distinct { IfOk result (λ text. IsPrintedOnlyFor Postgres (string_bytes text)
            self.now) }
    {
        self.postgres_text().to_string(alloc)
    }

    /// The text in the style `postgres_verbose`, as `@ 1 year 2 mons 3 days 4 hours 5 mins 6.7
    /// secs`.
    pub fn to_postgres_verbose(&self, alloc: Global) -> Result<String, AllocError>
        ensures printed { IfOk result (λ text. string_bytes text
            ≡ printed PostgresVerbose self.now) }
        // the text stands for this interval and for no other, and no other prints as it does
        ensures stands { IfOk result (λ text. StandsForOnly PostgresVerbose (string_bytes text)
            self.now) }
        ensures distinct { IfOk result (λ text. IsPrintedOnlyFor PostgresVerbose (string_bytes text)
            self.now) }
    {
        self.in_normal_form().into_postgres_verbose(alloc)
    }

    /// The text in the style `iso_8601`, as `P1Y2M3DT4H5M6.700000S`.
    pub fn to_iso_8601(&self, alloc: Global) -> Result<String, AllocError>
        ensures printed { IfOk result (λ text. string_bytes text ≡ printed Iso8601 self.now) }
        // the text stands for this interval and for no other, and no other prints as it does
        ensures stands { IfOk result (λ text. StandsForOnly Iso8601 (string_bytes text) self.now) }
        ensures distinct { IfOk result (λ text. IsPrintedOnlyFor Iso8601 (string_bytes text)
            self.now) }
    {
        self.in_normal_form().into_iso_8601(alloc)
    }

    /// The text in the style `sql_standard`, as `+1-2 +3 +4:05:06.700000`.
    pub fn to_sql(&self, alloc: Global) -> Result<String, AllocError>
        ensures printed { IfOk result (λ text. string_bytes text ≡ printed SqlStandard self.now) }
        // the text stands for this interval and for no other, and no other prints as it does
        ensures stands { IfOk result (λ text. StandsForOnly SqlStandard (string_bytes text)
            self.now) }
        ensures distinct { IfOk result (λ text. IsPrintedOnlyFor SqlStandard (string_bytes text)
            self.now) }
    {
        self.in_normal_form().into_sql(alloc)
    }

    /// The interval's normal form.
    #[inline(always)]
    fn in_normal_form(self) -> IntervalNorm
        ensures form { result ≡ normal_form self }
        ensures normal { IsNormal result }
        ensures within { IsInterval self }
    {
        IntervalNorm::from(&self)
    }
}

impl IntervalNorm {
    /// The text in the style `postgres`: the years, months and days that aren't zero, each with its
    /// own minus, and the time, unless it is zero. Zero prints `00:00:00`.
    #[inline(always)]
    pub fn into_postgres(self, alloc: Global) -> Result<String, AllocError>
        requires { IsNormal self }
        ensures printed { IfOk result (λ text. string_bytes text ≡ postgres_text self) }
    {
        let text = self.to_interval().postgres_text();
        text.to_string(alloc)
    }

    /// The text in the style `postgres_verbose`: `@` and the parts that aren't zero. Where the
    /// first is negative, each number is negated and the text ends with `ago`. Zero prints `@ 0`.
    #[inline(always)]
    pub fn into_postgres_verbose(self, alloc: Global) -> Result<String, AllocError>
        requires { IsNormal self }
        ensures printed { IfOk result (λ text. string_bytes text ≡ verbose_text self) }
    {
        let text = self.postgres_verbose_text();
        text.to_string(alloc)
    }

    /// The text in the style `iso_8601`: `PT0S` for zero, else `P` and each number that isn't zero,
    /// with its own minus and its letter. A `T` stands before the numbers of the time.
    #[inline(always)]
    pub fn into_iso_8601(self, alloc: Global) -> Result<String, AllocError>
        requires { IsNormal self }
        ensures printed { IfOk result (λ text. string_bytes text ≡ iso_text self) }
    {
        let text = self.iso_8601_text();
        text.to_string(alloc)
    }

    /// The text in the style `sql_standard`: `0` for zero; only years and months where the rest is
    /// zero; only days and time where the rest is zero and the two have no opposite signs; else all
    /// three, each with its sign.
    #[inline(always)]
    pub fn into_sql(self, alloc: Global) -> Result<String, AllocError>
        requires { IsNormal self }
        ensures printed { IfOk result (λ text. string_bytes text ≡ sql_text self) }
    {
        let text = self.sql_text();
        text.to_string(alloc)
    }

    /// The interval whose normal form this is.
    fn to_interval(self) -> Interval
        requires { IsNormal self }
        ensures { normal_form result ≡ self }
    {
        match self.try_into_interval() {
            Ok(interval) => interval,
            Err(_) => unreachable!(),
        }
    }

    /// The text in the style `postgres_verbose`, on the stack.
    #[inline(always)]
    fn postgres_verbose_text(&self) -> IntervalText
        requires { IsNormal self.now }
        ensures { IsPrintedAs (verbose_text self.now) result }
    {
        let mut bytes = [0; LONGEST];
        let start = put_verbose(self, &mut bytes, LONGEST);
        IntervalText::new(bytes, start)
    }

    /// The text in the style `iso_8601`, on the stack.
    #[inline(always)]
    fn iso_8601_text(&self) -> IntervalText
        requires { IsNormal self.now }
        ensures { IsPrintedAs (iso_text self.now) result }
    {
        let mut bytes = [0; LONGEST];
        let start = put_iso(self, &mut bytes, LONGEST);
        IntervalText::new(bytes, start)
    }

    /// The text in the style `sql_standard`, on the stack.
    #[inline(always)]
    fn sql_text(&self) -> IntervalText
        requires { IsNormal self.now }
        ensures { IsPrintedAs (sql_text self.now) result }
    {
        let mut bytes = [0; LONGEST];
        let start = put_sql(self, &mut bytes, LONGEST);
        IntervalText::new(bytes, start)
    }
}

// The tests of a normal form's fields by which a text is chosen.
impl IntervalNorm {
    /// Are all fields zero?
    fn prints_zero(&self) -> bool
        ensures { result ≡ is_all_zero self.now }
    {
        self.is_zeroed()
    }

    /// Are the years or the months not zero?
    fn prints_year_month(&self) -> bool
        ensures { result ≡ not (is_year_month_zero self.now) }
    {
        self.is_year_month_present()
    }

    /// Are the days not zero?
    fn prints_days(&self) -> bool
        ensures { result ≡ not (is_zero self.now.days) }
    {
        self.is_day_present()
    }

    /// Is some field of the time not zero?
    #[tactic(auto, unfolding(crate::specs::Printed::is_time_zero, crate::specs::Printed::is_zero))]
    fn prints_time(&self) -> bool
        ensures { result ≡ not (is_time_zero self.now) }
    {
        self.hours.unsigned_abs() != 0
            || self.minutes.unsigned_abs() != 0
            || self.seconds.unsigned_abs() != 0
            || self.microseconds.unsigned_abs() != 0
    }

    /// Is some field of the time above zero?
    fn is_time_positive(&self) -> bool
        ensures { result ≡ is_time_positive self.now }
    {
        self.hours.is_positive()
            || self.minutes.is_positive()
            || self.seconds.is_positive()
            || self.microseconds.is_positive()
    }

    /// Is some field of the time below zero?
    fn is_time_negative(&self) -> bool
        ensures { result ≡ is_time_negative self.now }
    {
        self.hours.is_negative()
            || self.minutes.is_negative()
            || self.seconds.is_negative()
            || self.microseconds.is_negative()
    }

    /// Are the seconds and their microseconds zero?
    #[tactic(auto, unfolding(crate::specs::Printed::is_second_zero, crate::specs::Printed::is_zero))]
    fn is_second_zero(&self) -> bool
        ensures { result ≡ is_second_zero self.now }
    {
        self.seconds.unsigned_abs() == 0 && self.microseconds.unsigned_abs() == 0
    }

    /// Are the seconds or their microseconds below zero?
    fn is_second_negative(&self) -> bool
        ensures { result ≡ is_second_negative self.now }
    {
        self.seconds.is_negative() || self.microseconds.is_negative()
    }
}
