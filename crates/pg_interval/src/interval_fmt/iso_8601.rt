ghost use Rattle.std.specs.Prelude.{◌≡◌, ◌+◌, ◌++◌, ◌∷◌, [], ◌<◌, ◌≤◌, drop, length, unsigned_abs};
ghost use Rattle.pg_interval.specs.Printed.{iso_text, iso_time_text, item_text, second_text, digits_of};
ghost use Rattle.pg_interval.specs.Widths.{HasRoom};

use super::LONGEST;
use super::back::{put_byte, put_byte_if, put_fraction, put_word};
use super::digits::put_digits;
use crate::interval_norm::IntervalNorm;

/// Writes the text in the style `iso_8601`: `PT0S` for zero, else `P` and each number that isn't
/// zero, with its own minus and its letter. A `T` stands before the numbers of the time.
#[inline(always)]
#[tactic(auto, using(crate::proofs::PrintedLemmas::signed_passed), unfolding(crate::specs::Printed::iso_text))]
pub fn put_iso(fields: &IntervalNorm, text: &mut [u8; LONGEST], end: usize) -> usize
    requires { HasRoom 58 fields.now end }
    ensures place { result ≤ end }
    ensures written { drop result text.new ≡ iso_text fields.now ++ drop end text.old }
{
    if fields.prints_zero() {
        return put_word(b"PT0S", text, end);
    }
    let time = put_time(fields, text, end);
    let days = put_item(i64::from(fields.days), b'D', text, time);
    let months = put_item(i64::from(fields.months), b'M', text, days);
    let years = put_item(i64::from(fields.years), b'Y', text, months);
    put_byte(b'P', text, years)
}

/// Writes `T` and the fields of the time that aren't zero, if there are any.
#[inline(always)]
#[tactic(auto, using(crate::proofs::PrintedLemmas::signed_passed), unfolding(crate::specs::Printed::iso_time_text))]
fn put_time(fields: &IntervalNorm, text: &mut [u8; LONGEST], end: usize) -> usize
    requires { HasRoom 30 fields.now end }
    ensures place { (result ≤ end) × (end ≤ result + 28) }
    ensures written { drop result text.new ≡ iso_time_text fields.now ++ drop end text.old }
{
    if !fields.prints_time() {
        return end;
    }
    let seconds = put_seconds(fields, text, end);
    let minutes = put_item(fields.minutes, b'M', text, seconds);
    let hours = put_item(fields.hours, b'H', text, minutes);
    put_byte(b'T', text, hours)
}

/// Writes the number with its minus, and the letter, unless the number is zero.
#[inline(always)]
#[tactic(auto, using(crate::proofs::PrintedLemmas::signed_passed), unfolding(crate::specs::Printed::item_text, crate::specs::Printed::is_zero))]
fn put_item(number: i64, letter: u8, text: &mut [u8; LONGEST], end: usize) -> usize
    requires { (length (digits_of number) + 4 ≤ end) × (end ≤ 96) }
    ensures place { (result ≤ end) × (end ≤ result + length (digits_of number) + 2) }
    ensures written { drop result text.new ≡ item_text number letter ++ drop end text.old }
{
    if number == 0 {
        return end;
    }
    let before_letter = put_byte(letter, text, end);
    let before_digits = put_digits(number.unsigned_abs(), text, before_letter);
    put_byte_if(number.is_negative(), b'-', text, before_digits)
}

/// Writes the seconds with their microseconds, unless both are zero.
#[inline(always)]
#[tactic(auto, using(crate::proofs::PrintedLemmas::signed_passed), unfolding(crate::specs::Printed::second_text, crate::specs::Printed::is_zero))]
fn put_seconds(fields: &IntervalNorm, text: &mut [u8; LONGEST], end: usize) -> usize
    requires { HasRoom 13 fields.now end }
    ensures place { (result ≤ end) × (end ≤ result + 11) }
    ensures written { drop result text.new ≡ second_text fields.now ++ drop end text.old }
{
    if fields.is_second_zero() {
        return end;
    }
    let letter = put_byte(b'S', text, end);
    let point = put_fraction(fields.microseconds, text, letter);
    let digits = put_digits(fields.seconds.unsigned_abs(), text, point);
    put_byte_if(fields.is_second_negative(), b'-', text, digits)
}
