ghost use Rattle.std.specs.Prelude.{◌≡◌, ◌+◌, ◌/◌, ◌%◌, ◌++◌, ◌∷◌, ◌≤◌, false, drop, length, flat_map, decimal};
ghost use Rattle.pg_interval.specs.Cell.{IsInterval};
ghost use Rattle.pg_interval.specs.NormalForm.{normal_form};
ghost use Rattle.pg_interval.specs.Printed.{postgres_text, date_parts, verbose_part_text, time_texts, two_digits_of};

use super::LONGEST;
use super::back::{put_byte, put_byte_if, put_point_and_digits, put_word};
use super::digits::{put_digits, put_two_digits};
use super::parts::put_part;
use crate::pg_interval::Interval;

/// Writes the text in the style `postgres`: the years, months and days that aren't zero, each with
/// its own minus, and the time, unless it is zero. Zero prints `00:00:00`. Each part is written
/// after a space, and the first space isn't counted.
#[inline(always)]
pub fn put_postgres(interval: Interval, text: &mut [u8; LONGEST]) -> usize
    ensures place { result ≤ 96 }
    ensures written { drop result text.new
        ≡ postgres_text (normal_form interval) ++ drop 96 text.old }
    ensures within { IsInterval interval }
{
    let time = put_time(&interval, text, LONGEST);
    let parts = put_date_parts(&interval, text, time);
    if parts == LONGEST {
        put_word(b"00:00:00", text, LONGEST)
    } else {
        parts + 1
    }
}

/// Writes the years, months and days that aren't zero, each after a space.
#[inline(always)]
fn put_date_parts(interval: &Interval, text: &mut [u8; LONGEST], end: usize) -> usize
    requires { (60 ≤ end) × (end ≤ 96) }
    ensures place { (result ≤ end) × (end ≤ result + 45) }
    ensures written { drop result text.new
        ≡ flat_map (verbose_part_text false) (date_parts (normal_form interval.now))
        ++ drop end text.old }
{
    let days = u64::from(interval.days.unsigned_abs());
    let months = interval.months.unsigned_abs();
    let negative = interval.months.is_negative();
    let day = put_part(
        interval.days.is_negative(),
        days,
        b"day",
        b" days",
        text,
        end,
    );
    let mon = put_part(
        negative,
        u64::from(months % 12),
        b"mon",
        b" mons",
        text,
        day,
    );
    put_part(
        negative,
        u64::from(months / 12),
        b"year",
        b" years",
        text,
        mon,
    )
}

/// Writes a space and the time, unless it is zero.
#[inline(always)]
fn put_time(interval: &Interval, text: &mut [u8; LONGEST], end: usize) -> usize
    requires { (26 ≤ end) × (end ≤ 96) }
    ensures place { (result ≤ end) × (end ≤ result + 25) }
    ensures written { drop result text.new
        ≡ flat_map (λ t. 32 ∷ t) (time_texts (normal_form interval.now)) ++ drop end text.old }
{
    let microseconds = interval.microseconds.unsigned_abs();
    if microseconds == 0 {
        return end;
    }
    let point = put_point_and_digits(microseconds % 1_000_000, text, end);
    let clock = put_clock(microseconds / 1_000_000, text, point);
    let minus = put_byte_if(interval.microseconds.is_negative(), b'-', text, clock);
    put_byte(b' ', text, minus)
}

/// Writes this many seconds as hours, minutes and seconds.
#[inline(always)]
#[tactic(auto, using(crate::proofs::PrintedLemmas::signed_passed))]
fn put_clock(seconds: u64, text: &mut [u8; LONGEST], end: usize) -> usize
    requires hours { length (decimal (seconds / 60 / 60)) ≤ 10 }
    requires room { (16 ≤ end) × (end ≤ 96) }
    ensures place { (result ≤ end) × (end ≤ result + 16) }
    ensures written { drop result text.new
        ≡ two_digits_of (seconds / 60 / 60) ++ 58 ∷ two_digits_of (seconds / 60 % 60)
        ++ 58 ∷ two_digits_of (seconds % 60) ++ drop end text.old }
{
    let minutes = seconds / 60;
    let before_seconds = put_two_digits(seconds % 60, text, end);
    let colon = put_byte(b':', text, before_seconds);
    let before_minutes = put_two_digits(minutes % 60, text, colon);
    let first_colon = put_byte(b':', text, before_minutes);
    put_hours(minutes / 60, text, first_colon)
}

/// Writes the number in decimal digits, two of them at least.
#[inline(always)]
#[tactic(auto, unfolding(crate::specs::Printed::two_digits_of))]
fn put_hours(number: u64, text: &mut [u8; LONGEST], end: usize) -> usize
    requires { (length (decimal number) ≤ 10) × (10 ≤ end) × (end ≤ 96) }
    ensures place { (result ≤ end) × (end ≤ result + 10) }
    ensures written { drop result text.new ≡ two_digits_of number ++ drop end text.old }
{
    if number < 100 {
        put_two_digits(number, text, end)
    } else {
        put_digits(number, text, end)
    }
}
