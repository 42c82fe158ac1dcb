ghost use Rattle.std.specs.Prelude.{◌≡◌, ◌+◌, ◌++◌, ◌∷◌, [], ◌<◌, ◌≤◌, drop, length, decimal};
ghost use Rattle.pg_interval.specs.Printed.{sql_text, signed_days_text, sign_of, year_month_text, sql_time_text, day_time_text, signed_text, are_opposite, is_year_month_negative, is_time_negative};
ghost use Rattle.pg_interval.specs.Widths.{HasRoom};

use super::LONGEST;
use super::back::{put_after_hours, put_byte, put_byte_if};
use super::digits::put_digits;
use crate::interval_norm::IntervalNorm;

impl IntervalNorm {
    /// Are the years or the months below zero?
    fn is_year_month_negative(&self) -> bool
        ensures { result ≡ is_year_month_negative self.now }
    {
        self.years.is_negative() || self.months.is_negative()
    }

    /// Do the days and the time have opposite signs?
    fn has_opposite_signs(&self) -> bool
        ensures { result ≡ are_opposite self.now }
    {
        (self.days.is_negative() && self.is_time_positive())
            || (self.days.is_positive() && self.is_time_negative())
    }
}

/// Writes the text in the style `sql_standard`: `0` for zero; only years and months where the rest
/// is zero; only days and time where the rest is zero and the two have no opposite signs; else all
/// three, each with its sign.
#[inline(always)]
#[tactic(auto, using(crate::proofs::PrintedLemmas::signed_passed), unfolding(crate::specs::Printed::sql_text, crate::specs::Printed::fields_text))]
pub fn put_sql(fields: &IntervalNorm, text: &mut [u8; LONGEST], end: usize) -> usize
    requires { HasRoom 52 fields.now end }
    ensures place { result ≤ end }
    ensures written { drop result text.new ≡ sql_text fields.now ++ drop end text.old }
{
    if fields.prints_zero() {
        put_byte(b'0', text, end)
    } else if !fields.prints_days() && !fields.prints_time() {
        let digits = put_year_month(fields, text, end);
        put_byte_if(fields.is_year_month_negative(), b'-', text, digits)
    } else if !fields.prints_year_month() && !fields.has_opposite_signs() {
        put_day_time(fields, text, end)
    } else {
        put_signed(fields, text, end)
    }
}

/// Writes `-` or `+`.
#[inline(always)]
fn put_sign(negative: bool, text: &mut [u8; LONGEST], end: usize) -> usize
    requires { (1 ≤ end) × (end ≤ 96) }
    ensures place { result + 1 ≡ end }
    ensures written { drop result text.new ≡ sign_of negative ++ drop end text.old }
{
    put_byte(if negative { b'-' } else { b'+' }, text, end)
}

/// Writes years and months without a sign.
#[inline(always)]
#[tactic(auto, using(crate::proofs::PrintedLemmas::signed_passed), unfolding(crate::specs::Printed::year_month_text))]
fn put_year_month(fields: &IntervalNorm, text: &mut [u8; LONGEST], end: usize) -> usize
    requires { HasRoom 15 fields.now end }
    ensures place { (result ≤ end) × (end ≤ result + 12) }
    ensures written { drop result text.new ≡ year_month_text fields.now ++ drop end text.old }
{
    let months = put_digits(u64::from(fields.months.unsigned_abs()), text, end);
    let minus = put_byte(b'-', text, months);
    put_digits(u64::from(fields.years.unsigned_abs()), text, minus)
}

/// Writes the time without a sign.
#[inline(always)]
#[tactic(auto, using(crate::proofs::PrintedLemmas::signed_passed), unfolding(crate::specs::Printed::sql_time_text))]
fn put_time(fields: &IntervalNorm, text: &mut [u8; LONGEST], end: usize) -> usize
    requires { HasRoom 26 fields.now end }
    ensures place { (result ≤ end) × (end ≤ result + 23) }
    ensures written { drop result text.new ≡ sql_time_text fields.now ++ drop end text.old }
{
    let after_hours = put_after_hours(fields, text, end);
    put_digits(fields.hours.unsigned_abs(), text, after_hours)
}

/// Writes the days, unless they are zero, and the time, with one sign in front.
#[inline(always)]
#[tactic(auto, using(crate::proofs::PrintedLemmas::signed_passed), unfolding(crate::specs::Printed::day_time_text, crate::specs::Printed::is_zero))]
fn put_day_time(fields: &IntervalNorm, text: &mut [u8; LONGEST], end: usize) -> usize
    requires { HasRoom 52 fields.now end }
    ensures place { (result ≤ end) × (end ≤ result + 35) }
    ensures written { drop result text.new ≡ day_time_text fields.now ++ drop end text.old }
{
    let time = put_time(fields, text, end);
    let days = fields.days.unsigned_abs();
    if days == 0 {
        return put_byte_if(fields.is_time_negative(), b'-', text, time);
    }
    let space = put_byte(b' ', text, time);
    let digits = put_digits(u64::from(days), text, space);
    put_byte_if(fields.days.is_negative(), b'-', text, digits)
}

/// Writes years and months, days, and the time, each with its sign.
#[inline(always)]
#[tactic(auto, using(crate::proofs::PrintedLemmas::signed_passed), unfolding(crate::specs::Printed::signed_text))]
fn put_signed(fields: &IntervalNorm, text: &mut [u8; LONGEST], end: usize) -> usize
    requires { HasRoom 52 fields.now end }
    ensures place { (result ≤ end) × (end ≤ result + 50) }
    ensures written { drop result text.new ≡ signed_text fields.now ++ drop end text.old }
{
    let time = put_time(fields, text, end);
    let time_sign = put_sign(fields.is_time_negative(), text, time);
    let space = put_byte(b' ', text, time_sign);
    let days = put_signed_days(fields, text, space);
    let second_space = put_byte(b' ', text, days);
    let year_month = put_year_month(fields, text, second_space);
    put_sign(fields.is_year_month_negative(), text, year_month)
}

/// Writes the days with their sign.
#[inline(always)]
#[tactic(auto, using(crate::proofs::PrintedLemmas::signed_passed), unfolding(crate::specs::Printed::signed_days_text))]
fn put_signed_days(fields: &IntervalNorm, text: &mut [u8; LONGEST], end: usize) -> usize
    requires { HasRoom 13 fields.now end }
    ensures place { (result ≤ end) × (end ≤ result + 11) }
    ensures written { drop result text.new ≡ signed_days_text fields.now ++ drop end text.old }
{
    let digits = put_digits(u64::from(fields.days.unsigned_abs()), text, end);
    put_sign(fields.days.is_negative(), text, digits)
}
