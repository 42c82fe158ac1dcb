ghost use Rattle.std.specs.Prelude.{◌≡◌, ◌+◌, ◌++◌, ◌∷◌, [], ◌<◌, ◌≤◌, drop, length, flat_map, decimal, unsigned_abs, ◌%◌, ◌==◌, if◌then◌else◌};
ghost use Rattle.pg_interval.specs.Printed.{verbose_text, verbose_part_text, part_of, date_parts, verbose_time_parts, verbose_parts, second_parts, second_digits, decimals_of, digits_of, ago_end, is_ago, word_end, minus_if, six_digits, without_last_zeros, kept_digit};
ghost use Rattle.pg_interval.specs.Widths.{HasRoom};

use super::LONGEST;
use super::back::{put_byte, put_byte_if, put_word};
use super::digits::{put_digits, put_six_digits};
use super::parts::put_part;
use crate::interval_norm::IntervalNorm;

impl IntervalNorm {
    /// Is the first part that isn't zero below zero?
    #[tactic(auto, unfolding(crate::specs::Printed::verbose_parts, crate::specs::Printed::date_parts, crate::specs::Printed::part_of, crate::specs::Printed::is_zero))]
    fn is_ago(&self) -> bool
        ensures { result ≡ is_ago (verbose_parts self.now) }
    {
        if self.years.unsigned_abs() != 0 {
            self.years.is_negative()
        } else if self.months.unsigned_abs() != 0 {
            self.months.is_negative()
        } else if self.days.unsigned_abs() != 0 {
            self.days.is_negative()
        } else {
            self.is_time_ago()
        }
    }

    /// Is the first part of the time that isn't zero below zero?
    #[tactic(auto, unfolding(crate::specs::Printed::verbose_time_parts, crate::specs::Printed::part_of, crate::specs::Printed::is_zero, crate::specs::Printed::second_parts))]
    fn is_time_ago(&self) -> bool
        ensures { result ≡ is_ago (verbose_time_parts self.now) }
    {
        if self.hours.unsigned_abs() != 0 {
            self.hours.is_negative()
        } else if self.minutes.unsigned_abs() != 0 {
            self.minutes.is_negative()
        } else {
            self.is_second_negative()
        }
    }
}

/// Writes the text in the style `postgres_verbose`: `@` and the parts that aren't zero. Where the
/// first is negative, each number is negated and the text ends with `ago`. Zero prints `@ 0`.
#[inline(always)]
#[tactic(auto, using(crate::proofs::PrintedLemmas::parts_put), unfolding(crate::specs::Printed::verbose_text))]
pub fn put_verbose(fields: &IntervalNorm, text: &mut [u8; LONGEST], end: usize) -> usize
    requires { HasRoom 95 fields.now end }
    ensures place { result ≤ end }
    ensures written { drop result text.new ≡ verbose_text fields.now ++ drop end text.old }
{
    if fields.prints_zero() {
        return put_word(b"@ 0", text, end);
    }
    let ago = fields.is_ago();
    let parts = put_ago_end(ago, text, end);
    let time = put_time_parts(ago, fields, text, parts);
    let date = put_date_parts(ago, fields, text, time);
    put_byte(b'@', text, date)
}

/// Writes `ago` at the end, if the text has it.
#[inline(always)]
fn put_ago_end(ago: bool, text: &mut [u8; LONGEST], end: usize) -> usize
    requires { (4 ≤ end) × (end ≤ 96) }
    ensures place { (result ≤ end) × (end ≤ result + 4) }
    ensures written { drop result text.new ≡ ago_end ago ++ drop end text.old }
{
    if ago {
        put_word(b" ago", text, end)
    } else {
        end
    }
}

/// Writes the hours, minutes and seconds.
#[inline(always)]
#[tactic(auto, using(crate::proofs::PrintedLemmas::parts_put), unfolding(crate::specs::Printed::verbose_time_parts))]
fn put_time_parts(ago: bool, fields: &IntervalNorm, text: &mut [u8; LONGEST], end: usize) -> usize
    requires { HasRoom 46 fields.now end }
    ensures place { (result ≤ end) × (end ≤ result + 44) }
    ensures written { drop result text.new
        ≡ flat_map (verbose_part_text ago) (verbose_time_parts fields.now) ++ drop end text.old }
{
    let seconds = put_seconds(ago, fields, text, end);
    let minutes = put_verbose_part(ago, fields.minutes, b"min", b" mins", text, seconds);
    put_verbose_part(ago, fields.hours, b"hour", b" hours", text, minutes)
}

/// Writes the years, months and days.
#[inline(always)]
#[tactic(auto, using(crate::proofs::PrintedLemmas::parts_put), unfolding(crate::specs::Printed::date_parts))]
fn put_date_parts(ago: bool, fields: &IntervalNorm, text: &mut [u8; LONGEST], end: usize) -> usize
    requires { HasRoom 47 fields.now end }
    ensures place { (result ≤ end) × (end ≤ result + 45) }
    ensures written { drop result text.new
        ≡ flat_map (verbose_part_text ago) (date_parts fields.now) ++ drop end text.old }
{
    let days = put_verbose_part(ago, i64::from(fields.days), b"day", b" days", text, end);
    let months = put_verbose_part(ago, i64::from(fields.months), b"mon", b" mons", text, days);
    put_verbose_part(
        ago,
        i64::from(fields.years),
        b"year",
        b" years",
        text,
        months,
    )
}

/// Writes a space and a part, its number negated where the text ends with `ago`.
#[inline(always)]
#[tactic(auto, using(crate::proofs::PrintedLemmas::signed_passed), unfolding(crate::specs::Printed::part_of, crate::specs::Printed::is_zero, crate::specs::Printed::verbose_part_text))]
fn put_verbose_part(
    ago: bool,
    number: i64,
    word: &[u8],
    words: &[u8],
    text: &mut [u8; LONGEST],
    end: usize,
) -> usize
    requires word { length word.now ≤ 4 }
    requires words { words.now ≡ 32 ∷ word.now ++ 115 ∷ [] }
    requires room { (length (digits_of number) + 10 ≤ end) × (end ≤ 96) }
    ensures place { (result ≤ end) × (end ≤ result + length (digits_of number) + 8) }
    ensures written { drop result text.new
        ≡ flat_map (verbose_part_text ago) (part_of number word.now) ++ drop end text.old }
{
    if number == 0 {
        return end;
    }
    let negative = number.is_negative() != ago;
    put_part(negative, number.unsigned_abs(), word, words, text, end)
}

/// Writes a space and the seconds with their decimals, negated where the text ends with `ago`.
#[inline(always)]
#[tactic(auto, using(crate::proofs::PrintedLemmas::signed_passed), unfolding(crate::specs::Printed::second_parts, crate::specs::Printed::verbose_part_text, crate::specs::Printed::part_text))]
fn put_seconds(ago: bool, fields: &IntervalNorm, text: &mut [u8; LONGEST], end: usize) -> usize
    requires { HasRoom 18 fields.now end }
    ensures place { (result ≤ end) × (end ≤ result + 16) }
    ensures written { drop result text.new
        ≡ flat_map (verbose_part_text ago) (second_parts fields.now) ++ drop end text.old }
{
    if fields.is_second_zero() {
        return end;
    }
    let negative = fields.is_second_negative() != ago;
    let letter = put_byte_if(has_second_end(negative, fields), b's', text, end);
    let letters = put_word(b" sec", text, letter);
    let digits = put_second_digits(fields, text, letters);
    let minus = put_byte_if(negative, b'-', text, digits);
    put_byte(b' ', text, minus)
}

/// Does the word of the seconds end with an `s`? It does unless 1 second is printed.
#[inline(always)]
#[tactic(auto, using(crate::proofs::PrintedLemmas::second_words, crate::proofs::PrintedLemmas::word_ends), unfolding(crate::specs::Printed::second_digits, crate::specs::Printed::decimals_of, crate::specs::Printed::is_zero))]
fn has_second_end(negative: bool, fields: &IntervalNorm) -> bool
    ensures { word_end (minus_if negative ++ second_digits fields.now)
        ≡ (if result then 115 ∷ [] else []) }
{
    if fields.microseconds.unsigned_abs() == 0 {
        let many = negative || fields.seconds.unsigned_abs() != 1;
        return many;
    }
    true
}

/// Writes the seconds with their decimals, without a sign.
#[inline(always)]
#[tactic(auto, using(crate::proofs::PrintedLemmas::signed_passed), unfolding(crate::specs::Printed::second_digits))]
fn put_second_digits(fields: &IntervalNorm, text: &mut [u8; LONGEST], end: usize) -> usize
    requires { HasRoom 12 fields.now end }
    ensures place { (result ≤ end) × (end ≤ result + 9) }
    ensures written { drop result text.new ≡ second_digits fields.now ++ drop end text.old }
{
    let point = put_decimals(fields.microseconds, text, end);
    put_digits(fields.seconds.unsigned_abs(), text, point)
}

/// Writes a point and the microseconds as decimals of the seconds, unless there are none.
#[inline(always)]
#[tactic(auto, using(crate::proofs::PrintedLemmas::signed_passed), unfolding(crate::specs::Printed::decimals_of, crate::specs::Printed::is_zero))]
fn put_decimals(microseconds: i64, text: &mut [u8; LONGEST], end: usize) -> usize
    requires { (unsigned_abs microseconds < 1000000) × (7 ≤ end) × (end ≤ 96) }
    ensures place { (result ≤ end) × (end ≤ result + 7) }
    ensures written { drop result text.new ≡ decimals_of microseconds ++ drop end text.old }
{
    let digits = microseconds.unsigned_abs();
    if digits == 0 {
        return end;
    }
    let decimals = put_without_last_zeros(digits, text, end);
    put_byte(b'.', text, decimals)
}

/// Writes the six digits of a number without the zeros at their end.
#[inline(always)]
#[tactic(auto, using(crate::proofs::DecimalsLemmas::six_kept))]
fn put_without_last_zeros(number: u64, text: &mut [u8; LONGEST], end: usize) -> usize
    requires { (number < 1000000) × (6 ≤ end) × (end ≤ 96) }
    ensures place { (result ≤ end) × (end ≤ result + 6) }
    ensures written { drop result text.new
        ≡ without_last_zeros (six_digits number) ++ drop end text.old }
{
    if number % 10 == 0 {
        put_some_digits(number, text, end)
    } else {
        put_six_digits(number, text, end)
    }
}

/// Does the same as `put_without_last_zeros`, digit by digit.
#[tactic(auto, unfolding(crate::specs::Printed::six_digits))]
fn put_some_digits(number: u64, text: &mut [u8; LONGEST], end: usize) -> usize
    requires { (number < 1000000) × (6 ≤ end) × (end ≤ 96) }
    ensures place { (result ≤ end) × (end ≤ result + 6) }
    ensures written { drop result text.new
        ≡ without_last_zeros (six_digits number) ++ drop end text.old }
{
    let mut left = number;
    let mut place = end;
    for _digit in 0..6usize {
        place = put_unless_last_zero(left, text, place, end);
        left /= 10;
    }
    place
}

/// Writes the last digit of the number before the digits up to `end`, unless it is a zero and no
/// digit follows it.
#[inline(always)]
fn put_unless_last_zero(number: u64, text: &mut [u8; LONGEST], place: usize, end: usize) -> usize
    requires { (1 ≤ place) × (place ≤ 96) }
    ensures place { (result ≤ place) × (place ≤ result + 1) }
    ensures written { drop result text.new
        ≡ kept_digit (number % 10) (place == end) (drop place text.old) }
{
    if number % 10 == 0 && place == end {
        place
    } else {
        put_byte(b'0' + (number % 10) as u8, text, place)
    }
}
