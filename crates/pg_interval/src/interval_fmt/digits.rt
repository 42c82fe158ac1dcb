// The digits of a number, two at a time, before the bytes from `end` on.
ghost use Rattle.std.specs.Prelude.{◌≡◌, ◌+◌, ◌/◌, ◌%◌, ◌<◌, ◌≤◌, ◌++◌, ◌∷◌, length, drop, decimal};
ghost use Rattle.pg_interval.specs.Printed.{last_digits, two_digits_of, six_digits};

use super::LONGEST;
use super::back::{put_byte, put_word};

/// Both digits of each number below 100.
static PAIRS: [u8; 200] =
    *b"00010203040506070809101112131415161718192021222324252627282930313233343536373839404142434445464748495051525354555657585960616263646566676869707172737475767778798081828384858687888990919293949596979899";

/// Writes the number in decimal digits.
#[inline(always)]
pub fn put_digits(number: u64, text: &mut [u8; LONGEST], end: usize) -> usize
    requires { (length (decimal number) ≤ end) × (end ≤ 96) }
    ensures place { result + length (decimal number) ≡ end }
    ensures written { drop result text.new ≡ decimal number ++ drop end text.old }
{
    let mut left = number;
    let mut place = end;
    while left >= 10_000 {
        place = put_four(left % 10_000, text, place);
        left /= 10_000;
    }
    put_up_to_four(left, text, place)
}

/// Writes a number below 10,000 in decimal digits.
#[inline(always)]
#[tactic(auto, using(crate::proofs::PutDigits::pair_less))]
fn put_up_to_four(number: u64, text: &mut [u8; LONGEST], end: usize) -> usize
    requires { (number < 10000) × (length (decimal number) ≤ end) × (end ≤ 96) }
    ensures place { result + length (decimal number) ≡ end }
    ensures written { drop result text.new ≡ decimal number ++ drop end text.old }
{
    if number < 100 {
        return put_up_to_two(number, text, end);
    }
    let two = put_pair(number % 100, text, end);
    put_up_to_two(number / 100, text, two)
}

/// Writes a number below 100 in decimal digits.
#[inline(always)]
#[tactic(auto, using(crate::proofs::PutDigits::up_to_two))]
fn put_up_to_two(number: u64, text: &mut [u8; LONGEST], end: usize) -> usize
    requires { (number < 100) × (length (decimal number) ≤ end) × (end ≤ 96) }
    ensures place { result + length (decimal number) ≡ end }
    ensures written { drop result text.new ≡ decimal number ++ drop end text.old }
{
    if number < 10 {
        put_byte(b'0' + number as u8, text, end)
    } else {
        put_pair(number, text, end)
    }
}

/// Writes the four digits of a number below 10,000.
#[inline(always)]
#[tactic(auto, using(crate::proofs::PutDigits::four_by_pairs))]
fn put_four(number: u64, text: &mut [u8; LONGEST], end: usize) -> usize
    requires { (number < 10000) × (4 ≤ end) × (end ≤ 96) }
    ensures place { result + 4 ≡ end }
    ensures written { drop result text.new ≡ last_digits 4 number ++ drop end text.old }
{
    let two = put_pair(number % 100, text, end);
    put_pair(number / 100, text, two)
}

/// Writes both digits of a number below 100.
#[inline(always)]
fn put_pair(number: u64, text: &mut [u8; LONGEST], end: usize) -> usize
    requires { (number < 100) × (2 ≤ end) × (end ≤ 96) }
    ensures place { result + 2 ≡ end }
    ensures written { drop result text.new
        ≡ (48 + number / 10) ∷ (48 + number % 10) ∷ drop end text.old }
{
    let from = number as usize * 2;
    put_word(&PAIRS[from..from + 2], text, end)
}

/// Writes a number below 100 in two digits.
#[inline(always)]
#[tactic(auto, using(crate::proofs::PutDigits::two_digits))]
pub fn put_two_digits(number: u64, text: &mut [u8; LONGEST], end: usize) -> usize
    requires { (number < 100) × (2 ≤ end) × (end ≤ 96) }
    ensures place { result + 2 ≡ end }
    ensures written { drop result text.new ≡ two_digits_of number ++ drop end text.old }
{
    put_pair(number, text, end)
}

/// Writes the six digits of a number of microseconds below a second.
#[inline(always)]
#[tactic(auto, using(crate::proofs::PutDigits::six_by_pairs))]
pub fn put_six_digits(number: u64, text: &mut [u8; LONGEST], end: usize) -> usize
    requires { (number < 1000000) × (6 ≤ end) × (end ≤ 96) }
    ensures place { result + 6 ≡ end }
    ensures written { drop result text.new ≡ six_digits number ++ drop end text.old }
{
    let front = number / 100;
    let four = put_pair(number % 100, text, end);
    let two = put_pair(front % 100, text, four);
    put_pair(front / 100, text, two)
}
