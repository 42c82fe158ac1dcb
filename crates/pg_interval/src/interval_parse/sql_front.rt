// A first try at reading the style `sql_standard`: the printed forms that have a time. It reads the
// texts that it knows, and leaves all others to the whole reader.
ghost use Rattle.std.specs.Prelude.{◌≡◌, ◌<◌, ◌^◌, Bool, true, IfSome, Ok};
ghost use Rattle.std.specs.List.{list_any};
ghost use Rattle.pg_interval.specs.Texts.{begins, is_colon, is_minus};
ghost use Rattle.pg_interval.specs.Decimals.{with_sign};
ghost use Rattle.pg_interval.specs.Reading.{SqlStandard, of_shape};
ghost use Rattle.pg_interval.specs.SqlText.{day_pairs, sql_pairs, sql_time_pairs, year_month_pairs};
ghost use Rattle.pg_interval.specs.FrontReader.{IsAmount, IsAmountFront, IsSeconds, only_days, only_months, only_time};

use super::front::{interval_within, number_front, signed, two_digits_front};
use super::number::{after_byte, sign_of, without_sign};
use super::sql::sign_of_two;
use crate::pg_interval::Interval;

/// The months in the years and months at the front of the text, without their sign, and what
/// follows them.
#[inline(always)]
fn months_front(text: &[u8]) -> Option<(u64, &[u8])>
    ensures amount { let minus = begins is_minus text.now in IfSome result
        (λ front. IsAmountFront year_month_pairs (only_months (with_sign minus front.0))
        text.now front.1.now) }
    ensures small { IfSome result (λ front. front.0 < 2 ^ 35) }
{
    let Some((years, behind)) = number_front(without_sign(text)) else {
        return None;
    };
    let Some(behind) = after_byte(b'-', behind) else {
        return None;
    };
    let Some((months, rest)) = number_front(behind) else {
        return None;
    };
    Some((12 * years + months, rest))
}

/// The days at the front of the text, without their sign, and what follows them.
#[inline(always)]
fn days_front(text: &[u8]) -> Option<(u64, &[u8])>
    ensures amount { let minus = begins is_minus text.now in IfSome result
        (λ front. IsAmountFront day_pairs (only_days (with_sign minus front.0))
        text.now front.1.now) }
    ensures small { IfSome result (λ front. front.0 < 2 ^ 31) }
{
    let Some((days, rest)) = number_front(without_sign(text)) else {
        return None;
    };
    Some((days, rest))
}

/// The microseconds of seconds, which may have a fraction of six digits.
#[inline(always)]
fn seconds(text: &[u8]) -> Option<u64>
    ensures { IfSome result (λ size. IsSeconds size text.now) }
{
    let Some((seconds, behind)) = two_digits_front(text) else {
        return None;
    };
    if behind.is_empty() {
        return Some(1_000_000 * seconds);
    }
    let Some(behind) = after_byte(b'.', behind) else {
        return None;
    };
    if behind.len() != 6 {
        return None;
    }
    let Some((fraction, rest)) = number_front(behind) else {
        return None;
    };
    if !rest.is_empty() {
        return None;
    }
    Some(1_000_000 * seconds + fraction)
}

/// The microseconds of the time that the text is, without its sign.
#[inline(always)]
fn time(text: &[u8]) -> Option<u64>
    ensures amount { IfSome result (λ size. (minus : Bool) →
        IsAmount (sql_time_pairs minus) (only_time (with_sign minus size)) text.now) }
    ensures colon { IfSome result (λ _size. list_any is_colon text.now ≡ true) }
    ensures small { IfSome result (λ size. size < 2 ^ 63) }
{
    let Some((hours, behind)) = number_front(without_sign(text)) else {
        return None;
    };
    let Some(behind) = after_byte(b':', behind) else {
        return None;
    };
    let Some((minutes, behind)) = two_digits_front(behind) else {
        return None;
    };
    let Some(behind) = after_byte(b':', behind) else {
        return None;
    };
    let Some(rest) = seconds(behind) else {
        return None;
    };
    Some(3_600_000_000 * hours + 60_000_000 * minutes + rest)
}

/// The interval of years and months, days and a time. `None` comes where this reader doesn't know
/// the text, or the text may be refused.
pub(super) fn read_three(text: &[u8]) -> Option<Interval>
    ensures { IfSome result (λ i. of_shape SqlStandard (sql_pairs text.now) ≡ Ok i) }
{
    let Some((months, behind)) = months_front(text) else {
        return None;
    };
    let Some(second) = after_byte(b' ', behind) else {
        return None;
    };
    let Some((days, behind)) = days_front(second) else {
        return None;
    };
    let Some(third) = after_byte(b' ', behind) else {
        return None;
    };
    let Some(microseconds) = time(third) else {
        return None;
    };
    interval_within(
        signed(sign_of(text, false), months),
        signed(sign_of(second, false), days),
        signed(sign_of(third, false), microseconds),
    )
}

/// The interval of days and a time. A time without a sign has the sign before the days. `None`
/// comes where this reader doesn't know the text, or the text may be refused.
#[inline(always)]
fn read_two(text: &[u8]) -> Option<Interval>
    ensures { IfSome result (λ i. of_shape SqlStandard (sql_pairs text.now) ≡ Ok i) }
{
    let Some((days, behind)) = days_front(text) else {
        return None;
    };
    let Some(second) = after_byte(b' ', behind) else {
        return None;
    };
    let Some(microseconds) = time(second) else {
        return None;
    };
    interval_within(
        0,
        signed(sign_of(text, false), days),
        signed(sign_of_two(text, second), microseconds),
    )
}

/// The interval of a time, or of days and a time. `None` comes where this reader doesn't know the
/// text, or the text may be refused.
pub(super) fn read_fewer(text: &[u8]) -> Option<Interval>
    ensures { IfSome result (λ i. of_shape SqlStandard (sql_pairs text.now) ≡ Ok i) }
{
    let Some(microseconds) = time(text) else {
        return read_two(text);
    };
    interval_within(0, 0, signed(sign_of(text, false), microseconds))
}
