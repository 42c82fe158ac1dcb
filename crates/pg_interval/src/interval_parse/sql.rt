// Reading the style `sql_standard`.
ghost use Rattle.std.specs.Prelude.{◌≡◌, ◌<◌, ◌≤◌, ◌+◌, length, IfSome, Ok, None, Some, if◌then◌else◌, option_map};
ghost use Rattle.pg_interval.specs.Texts.{begins, is_colon, is_minus, is_point, is_sign, tokens};
ghost use Rattle.std.specs.List.{slice_split};
ghost use Rattle.pg_interval.specs.Pairs.{nothing};
ghost use Rattle.pg_interval.specs.SqlText.{day_pairs, field_number, second_pairs, sql_pairs, sql_time_pairs, year_month_pairs};
ghost use Rattle.pg_interval.specs.FieldReader.{answer, fraction_number, int_out_of_range, int_read, minute_pairs, number_capped, pairs_of_one, pairs_of_three, pairs_of_two, token_first};
ghost use Rattle.pg_interval.specs.Reader.{number_read, so_far, tallied, time_unit};
ghost use Rattle.pg_interval.specs.Reading.{SqlStandard, of_shape, reading};
ghost use Rattle.pg_interval.specs.WordReader.{answered};

use super::number::{after_byte, number_of, sign_of, without_sign};
use super::parts::{Number, Totals, Unit};
use super::postgres::{interval_of, is};
use super::sql_front::{read_fewer, read_three};
use super::texts::{Kind, LONGEST_TEXT, cut, is_sign, run_len, trim_start};
use crate::pg_interval::Interval;
use interval_errors::{IntError, ParseError, Reason};

/// Does the text begin with a sign?
#[inline(always)]
fn begins_with_sign(text: &[u8]) -> bool
    ensures { result ≡ begins is_sign text.now }
{
    !text.is_empty() && is_sign(text[0])
}

/// The number that the field is, negative if `minus` says so: one or more digits.
#[inline(always)]
fn field_number(field: &[u8], minus: bool) -> Result<Number, IntError>
    ensures { int_read result ≡ number_capped (field_number minus field.now) }
{
    if field.is_empty() {
        return Err(IntError::Empty);
    }
    if run_len(Kind::Digit, field) < field.len() {
        return Err(IntError::InvalidDigit);
    }
    Ok(number_of(minus, field, b""))
}

/// The number of the digits after the point, at most six of them.
#[inline(always)]
fn fraction_number(fraction: &[u8], minus: bool) -> Result<Number, IntError>
    requires { length fraction.now ≤ 6 }
    ensures { int_read result ≡ number_capped (fraction_number minus fraction.now) }
{
    if run_len(Kind::Digit, fraction) < fraction.len() {
        return Err(IntError::InvalidDigit);
    }
    Ok(number_of(minus, b"", fraction))
}

impl Totals {
    /// Adds what the whole number of this unit is worth, or keeps why it failed.
    #[inline(always)]
    fn take_whole(&mut self, unit: Unit, number: Result<Number, IntError>)
        requires { self.old.count < 16384 }
        ensures sums { so_far self.new
            ≡ tallied int_out_of_range (time_unit unit) (int_read number) (so_far self.old) }
        ensures count { self.new.count ≤ self.old.count + 1 }
    {
        match number {
            Ok(decimal) => {
                if decimal.fits(unit) {
                    self.add(unit, decimal);
                } else {
                    self.refuse(ParseError::ParseIntErr(IntError::OutOfRange));
                }
            }
            Err(error) => self.refuse(ParseError::ParseIntErr(error)),
        }
    }

    /// These sums, unless the shape is broken.
    #[inline(always)]
    fn when(self, shaped: bool) -> Option<Totals>
        ensures { option_map so_far result ≡ (if shaped then Some (so_far self) else None) }
    {
        if shaped { Some(self) } else { None }
    }

    /// Takes years and months. `false` comes where the text has another shape.
    fn take_year_month(&mut self, text: &[u8]) -> bool
        requires { self.old.count + 2 ≤ 16384 }
        ensures taken { (if result then Some (so_far self.new) else None)
            ≡ answer (so_far self.old) (year_month_pairs text.now) }
        ensures count { self.new.count ≤ self.old.count + 2 }
    {
        let minus = sign_of(text, false);
        let (years, behind) = cut(Kind::NoMinus, without_sign(text));
        let Some(months) = after_byte(b'-', behind) else {
            return false;
        };
        if begins_with_sign(years) {
            return false;
        }
        if begins_with_sign(months) {
            return false;
        }
        self.take_whole(Unit::Year, field_number(years, minus));
        self.take_whole(Unit::Month, field_number(months, minus));
        true
    }

    /// Takes days. `false` comes where the text has another shape.
    fn take_days(&mut self, text: &[u8]) -> bool
        requires { self.old.count + 1 ≤ 16384 }
        ensures taken { (if result then Some (so_far self.new) else None)
            ≡ answer (so_far self.old) (day_pairs text.now) }
        ensures count { self.new.count ≤ self.old.count + 1 }
    {
        let minus = sign_of(text, false);
        let days = without_sign(text);
        if begins_with_sign(days) {
            return false;
        }
        self.take_whole(Unit::Day, field_number(days, minus));
        true
    }

    /// Takes seconds with the fraction that may follow them. `false` comes where the text has
    /// another shape.
    fn take_seconds(&mut self, text: &[u8], minus: bool) -> bool
        requires { self.old.count + 2 ≤ 16384 }
        ensures taken { (if result then Some (so_far self.new) else None)
            ≡ answer (so_far self.old) (second_pairs minus (slice_split is_point text.now)) }
        ensures count { self.new.count ≤ self.old.count + 2 }
    {
        let (seconds, behind) = cut(Kind::NoPoint, text);
        if begins_with_sign(seconds) {
            return false;
        }
        let Some(fraction) = after_byte(b'.', behind) else {
            self.take_whole(Unit::Second, field_number(seconds, minus));
            return true;
        };
        if run_len(Kind::NoPoint, fraction) < fraction.len() {
            return false;
        }
        if fraction.len() > 6 {
            return false;
        }
        self.take_whole(Unit::Second, field_number(seconds, minus));
        self.take_whole(Unit::Second, fraction_number(fraction, minus));
        true
    }

    /// Takes minutes and the seconds that may follow them. `false` comes where the text has another
    /// shape.
    fn take_minutes(&mut self, text: &[u8], minus: bool) -> bool
        requires { self.old.count + 3 ≤ 16384 }
        ensures taken { (if result then Some (so_far self.new) else None)
            ≡ answer (so_far self.old) (minute_pairs minus (slice_split is_colon text.now)) }
        ensures count { self.new.count ≤ self.old.count + 3 }
    {
        let (minutes, behind) = cut(Kind::NoColon, text);
        if begins_with_sign(minutes) {
            return false;
        }
        let Some(seconds) = after_byte(b':', behind) else {
            self.take_whole(Unit::Minute, field_number(minutes, minus));
            return true;
        };
        if run_len(Kind::NoColon, seconds) < seconds.len() {
            return false;
        }
        self.take_whole(Unit::Minute, field_number(minutes, minus));
        self.take_seconds(seconds, minus)
    }

    /// Takes a time, negative if `minus` says so. `false` comes where the text has another shape.
    fn take_time(&mut self, text: &[u8], minus: bool) -> bool
        requires { self.old.count + 4 ≤ 16384 }
        ensures taken { (if result then Some (so_far self.new) else None)
            ≡ answer (so_far self.old) (sql_time_pairs minus text.now) }
        ensures count { self.new.count ≤ self.old.count + 4 }
    {
        let (hours, behind) = cut(Kind::NoColon, without_sign(text));
        let Some(rest) = after_byte(b':', behind) else {
            return false;
        };
        if begins_with_sign(hours) {
            return false;
        }
        self.take_whole(Unit::Hour, field_number(hours, minus));
        self.take_minutes(rest, minus)
    }

    /// Takes the one token that there is. `false` comes where it has another shape.
    fn take_one(&mut self, first: &[u8]) -> bool
        requires { self.old.count + 4 ≤ 16384 }
        ensures taken { (if result then Some (so_far self.new) else None)
            ≡ answer (so_far self.old) (pairs_of_one first.now) }
        ensures count { self.new.count ≤ self.old.count + 4 }
    {
        if is(first, "0") {
            return true;
        }
        if first.contains(&b':') {
            return self.take_time(first, sign_of(first, false));
        }
        self.take_year_month(first)
    }

    /// Takes days and a time. A time without a sign has the sign before the days. `false` comes
    /// where they have another shape.
    fn take_two(&mut self, first: &[u8], second: &[u8]) -> bool
        requires { self.old.count + 5 ≤ 16384 }
        ensures taken { (if result then Some (so_far self.new) else None)
            ≡ answer (so_far self.old) (pairs_of_two first.now second.now) }
        ensures count { self.new.count ≤ self.old.count + 5 }
    {
        if !self.take_days(first) {
            return false;
        }
        self.take_time(second, sign_of_two(first, second))
    }

    /// Takes years and months, days and a time. `false` comes where they have another shape.
    fn take_three(&mut self, first: &[u8], second: &[u8], third: &[u8]) -> bool
        requires { self.old.count + 7 ≤ 16384 }
        ensures taken { (if result then Some (so_far self.new) else None)
            ≡ answer (so_far self.old) (pairs_of_three first.now second.now third.now) }
        ensures count { self.new.count ≤ self.old.count + 7 }
    {
        if !self.take_year_month(first) {
            return false;
        }
        if !self.take_days(second) {
            return false;
        }
        self.take_time(third, sign_of(third, false))
    }
}

/// Is the sign of the time a minus? A time without a sign has the sign before the days.
#[inline(always)]
pub(super) fn sign_of_two(first: &[u8], second: &[u8]) -> bool
    ensures { result ≡ begins is_minus (if begins is_sign second.now then second.now
        else first.now) }
{
    if begins_with_sign(second) {
        return sign_of(second, false);
    }
    sign_of(first, false)
}

/// The first token of the text, and what follows it. Both are empty where there is none.
#[inline(always)]
fn next_token(text: &[u8]) -> (&[u8], &[u8])
    ensures { tokens text.now ≡ token_first result.0.now result.1.now }
{
    cut(Kind::Solid, trim_start(text))
}

/// The sums of a text of the style `sql_standard`. `None` comes where the shape is broken.
fn read_sql(text: &[u8]) -> Option<Totals>
    ensures { option_map so_far result ≡ answer (Ok nothing) (sql_pairs text.now) }
{
    let (first, rest) = next_token(text);
    let (second, rest) = next_token(rest);
    let (third, rest) = next_token(rest);
    let (fourth, _rest) = next_token(rest);
    if first.is_empty() {
        return None;
    }
    let mut totals = Totals::new();
    if second.is_empty() {
        let shaped = totals.take_one(first);
        return totals.when(shaped);
    }
    if third.is_empty() {
        let shaped = totals.take_two(first, second);
        return totals.when(shaped);
    }
    if !fourth.is_empty() {
        return None;
    }
    let shaped = totals.take_three(first, second, third);
    totals.when(shaped)
}

impl Interval {
    /// The interval that the text stands for in the style `sql_standard`, as `+1-2 +3 +4:05:06.7`:
    /// years and months, days and a time, a time alone, or all three.
    ///
    /// The errors are those of `from_postgres`, but a number that fails is a `ParseIntErr`.
    pub fn from_sql(text: &str) -> Result<Interval, ParseError>
        ensures { result ≡ reading SqlStandard text.now }
    {
        let text = text.as_bytes();
        if text.len() > LONGEST_TEXT {
            return Err(ParseError::InvalidInterval(Reason::TooLong));
        }
        if let Some(interval) = read_three(text) {
            return Ok(interval);
        }
        if let Some(interval) = read_fewer(text) {
            return Ok(interval);
        }
        interval_of(read_sql(text))
    }
}
