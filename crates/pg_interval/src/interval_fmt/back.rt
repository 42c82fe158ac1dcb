// Bytes in an array, written from its end to its front: a call writes before the bytes from `end`
// on, and returns where its own bytes begin.
ghost use Rattle.std.specs.Prelude.{◌≡◌, ◌+◌, ◌^◌, ◌<◌, ◌≤◌, ◌==◌, ◌++◌, ◌∷◌, [], length, drop, unsigned_abs, if◌then◌else◌};
ghost use Rattle.pg_interval.specs.Printed.{fraction_of, six_digits, after_hours};
ghost use Rattle.pg_interval.specs.Widths.{HasRoom};

use super::LONGEST;
use super::digits::{put_six_digits, put_two_digits};
use crate::interval_norm::IntervalNorm;

/// Writes the byte.
#[inline(always)]
pub fn put_byte(byte: u8, text: &mut [u8; LONGEST], end: usize) -> usize
    requires { (1 ≤ end) × (end ≤ 96) }
    ensures place { result + 1 ≡ end }
    ensures written { drop result text.new ≡ byte ∷ drop end text.old }
{
    text[end - 1] = byte;
    end - 1
}

/// Writes the byte if it is wanted. The byte is always written, which needs no branch, and only
/// counted if it is wanted.
#[inline(always)]
#[tactic(auto, using(crate::proofs::PutDigits::behind_byte))]
pub fn put_byte_if(wanted: bool, byte: u8, text: &mut [u8; LONGEST], end: usize) -> usize
    requires { (1 ≤ end) × (end ≤ 96) }
    ensures place { (result ≤ end) × (end ≤ result + 1) }
    ensures written { drop result text.new
        ≡ (if wanted then byte ∷ [] else []) ++ drop end text.old }
{
    let place = put_byte(byte, text, end);
    place + usize::from(!wanted)
}

/// Writes the bytes of the word.
#[inline(always)]
pub fn put_word(word: &[u8], text: &mut [u8; LONGEST], end: usize) -> usize
    requires { (length word.now ≤ end) × (end ≤ 96) }
    ensures place { result + length word.now ≡ end }
    ensures written { drop result text.new ≡ word.now ++ drop end text.old }
{
    let start = end - word.len();
    text[start..end].copy_from_slice(word);
    start
}

/// Writes a point and the six digits of these microseconds, unless there are none.
#[inline(always)]
#[tactic(auto, using(crate::proofs::PrintedLemmas::signed_passed), unfolding(crate::specs::Printed::fraction_of, crate::specs::Printed::is_zero))]
pub fn put_fraction(microseconds: i64, text: &mut [u8; LONGEST], end: usize) -> usize
    requires { (unsigned_abs microseconds < 1000000) × (7 ≤ end) × (end ≤ 96) }
    ensures place { (result ≤ end) × (end ≤ result + 7) }
    ensures written { drop result text.new ≡ fraction_of microseconds ++ drop end text.old }
{
    put_point_and_digits(microseconds.unsigned_abs(), text, end)
}

/// Writes a point and the six digits of this many microseconds, unless there are none.
#[inline(always)]
pub fn put_point_and_digits(number: u64, text: &mut [u8; LONGEST], end: usize) -> usize
    requires { (number < 1000000) × (7 ≤ end) × (end ≤ 96) }
    ensures place { (result ≤ end) × (end ≤ result + 7) }
    ensures written { drop result text.new
        ≡ (if number == 0 then [] else 46 ∷ six_digits number) ++ drop end text.old }
{
    if number == 0 {
        return end;
    }
    let digits = put_six_digits(number, text, end);
    put_byte(b'.', text, digits)
}

/// Writes what follows the hours of a time.
#[inline(always)]
#[tactic(auto, using(crate::proofs::PrintedLemmas::signed_passed), unfolding(crate::specs::Printed::after_hours))]
pub fn put_after_hours(fields: &IntervalNorm, text: &mut [u8; LONGEST], end: usize) -> usize
    requires { HasRoom 13 fields.now end }
    ensures place { (result ≤ end) × (end ≤ result + 13) }
    ensures written { drop result text.new ≡ after_hours fields.now ++ drop end text.old }
{
    let point = put_fraction(fields.microseconds, text, end);
    let seconds = put_two_digits(fields.seconds.unsigned_abs(), text, point);
    let colon = put_byte(b':', text, seconds);
    let minutes = put_two_digits(fields.minutes.unsigned_abs(), text, colon);
    put_byte(b':', text, minutes)
}
