// Numbers at the front of a text, as a reader's first try takes them: digits that make a number
// below 2 ^ 31.
ghost use Rattle.std.specs.Prelude.{◌≡◌, ◌≤◌, ◌<◌, ◌^◌, length, take, true, IfSome, Ok};
ghost use Rattle.std.specs.List.{list_all};
ghost use Rattle.std.specs.Str.Parse.{digits_value};
ghost use Rattle.pg_interval.specs.Texts.{is_digit};
ghost use Rattle.pg_interval.specs.Decimals.{with_sign};
ghost use Rattle.pg_interval.specs.Pairs.{interval_of_sums};
ghost use Rattle.pg_interval.specs.Reader.{decimal_from};
ghost use Rattle.pg_interval.specs.FrontReader.{IsDecimalFront, IsNumberFront, IsPairFront};

use super::number::{after_byte, sign_of, without_sign};
use super::parts::Number;
use super::texts::{Kind, cut, is_digit, is_whitespace};
use crate::pg_interval::Interval;

/// The number that the digits at the front of the text make, and how many digits there are. Past 18
/// digits the number means nothing.
#[inline(always)]
fn digits_front(text: &[u8]) -> (u64, usize)
    ensures value { result.1 ≤ 18 → result.0 ≡ digits_value 10 (take result.1 text.now) }
    ensures digits { list_all is_digit (take result.1 text.now) ≡ true }
    ensures within { result.1 ≤ length text.now }
{
    let mut value = 0u64;
    for (place, byte) in text.iter().enumerate() {
        if !is_digit(*byte) {
            return (value, place);
        }
        value = value.wrapping_mul(10).wrapping_add(u64::from(*byte - b'0'));
    }
    (value, text.len())
}

/// The number below 2 ^ 31 at the front of the text, and what follows it. `None` comes where there
/// is none.
#[inline(always)]
pub(super) fn number_front(text: &[u8]) -> Option<(u64, &[u8])>
    ensures { IfSome result (λ front. IsNumberFront front.0 text.now front.1.now) }
{
    let (value, end) = digits_front(text);
    if end == 0 || end > 18 || value >= 1 << 31 {
        return None;
    }
    let (_digits, rest) = text.split_at(end);
    Some((value, rest))
}

/// The number of two digits at the front of the text, and what follows it. `None` comes where there
/// is none.
#[inline(always)]
pub(super) fn two_digits_front(text: &[u8]) -> Option<(u64, &[u8])>
    ensures { IfSome result (λ front. IsNumberFront front.0 text.now front.1.now) }
{
    if text.len() < 2 || !is_digit(text[0]) || !is_digit(text[1]) {
        return None;
    }
    let (_digits, rest) = text.split_at(2);
    Some((
        10 * u64::from(text[0] - b'0') + u64::from(text[1] - b'0'),
        rest,
    ))
}

/// The decimal at the front of the text, its sign turned if `turn` says so, and what follows it.
/// The decimal is a number below 2 ^ 31 with at most six digits after the point. `None` comes where
/// there is none.
#[inline(always)]
fn decimal_front(text: &[u8], turn: bool) -> Option<(Number, &[u8])>
    ensures { IfSome result
        (λ front. IsDecimalFront turn (decimal_from front.0) text.now front.1.now) }
{
    let negative = sign_of(text, turn);
    let Some((whole, behind)) = number_front(without_sign(text)) else {
        return None;
    };
    let Some(digits) = after_byte(b'.', behind) else {
        return Some((whole_number(negative, whole), behind));
    };
    let Some((fraction, rest)) = number_front(digits) else {
        return None;
    };
    let places = digits.len() - rest.len();
    if places > 6 {
        return None;
    }
    Some((
        Number {
            negative,
            whole,
            fraction,
            places: places as u32,
        },
        rest,
    ))
}

/// The whole number of this size, negative if `negative` says so.
#[inline(always)]
fn whole_number(negative: bool, whole: u64) -> Number
    ensures { decimal_from result
        ≡ record { negative = negative; whole = whole; fraction = 0; places = 0 } }
{
    Number {
        negative,
        whole,
        fraction: 0,
        places: 0,
    }
}

/// The decimal at the front of the text, the word after it with one space between them, and what
/// follows the word.
#[inline(always)]
pub(super) fn pair_front(text: &[u8], turn: bool) -> Option<(Number, &[u8], &[u8])>
    ensures { IfSome result
        (λ front. IsPairFront turn (decimal_from front.0) text.now front.1.now front.2.now) }
{
    let Some((number, behind)) = decimal_front(text, turn) else {
        return None;
    };
    let Some(behind) = after_byte(b' ', behind) else {
        return None;
    };
    let (word, rest) = cut(Kind::Letter, behind);
    if word.is_empty() {
        return None;
    }
    if !rest.is_empty() && !is_whitespace(rest[0]) {
        return None;
    }
    Some((number, word, rest))
}

/// The number of this size, negative if `minus` says so.
#[inline(always)]
pub(super) fn signed(minus: bool, size: u64) -> i64
    requires { size < 2 ^ 63 }
    ensures { result ≡ with_sign minus size }
{
    let number = size as i64;
    if minus { -number } else { number }
}

/// The interval of these sums. `None` comes where one of them leaves its type.
#[inline(always)]
pub(super) fn interval_within(months: i64, days: i64, microseconds: i64) -> Option<Interval>
    ensures { IfSome result (λ i.
        interval_of_sums (record { months = months; days = days; microseconds = microseconds })
        ≡ Ok i) }
{
    let Ok(months) = i32::try_from(months) else {
        return None;
    };
    let Ok(days) = i32::try_from(days) else {
        return None;
    };
    Some(Interval::new(months, days, microseconds))
}
