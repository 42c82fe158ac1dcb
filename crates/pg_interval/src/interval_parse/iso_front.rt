// A first try at reading the style `iso_8601`: items whose numbers lie below 2 ^ 31, and six digits
// after a point. It reads the texts that it knows, and leaves all others to the whole reader.
ghost use Rattle.std.specs.Prelude.{◌≡◌, ◌≤◌, ◌<◌, ◌^◌, ◌∷◌, true, false, length, IfSome, Some, Ok};
ghost use Rattle.pg_interval.specs.Pairs.{nothing};
ghost use Rattle.pg_interval.specs.Reader.{time_unit};
ghost use Rattle.pg_interval.specs.IsoText.{iso_pairs};
ghost use Rattle.pg_interval.specs.ItemReader.{left};
ghost use Rattle.pg_interval.specs.Reading.{Iso8601, of_shape};
ghost use Rattle.pg_interval.specs.FrontReader.{HasAdded, IsFraction, IsNumberFront, amount, left_of, only_days, only_months, only_time, sums_of, without_minus};

use super::front::{interval_within, number_front, signed};
use super::iso_8601::unit_at;
use super::number::{after_byte, sign_of};
use super::parts::Unit;
use crate::pg_interval::Interval;

/// The sums of the items so far, and whether the `T` was among them.
#[derive(Clone, Copy)]
pub(super) struct Sums {
    in_time: bool,
    months: i64,
    days: i64,
    microseconds: i64,
}

impl Sums {
    /// Adds months. `false` comes where the sum leaves its type.
    #[inline(always)]
    fn add_months(&mut self, more: i64) -> bool
        ensures { HasAdded result (only_months more) self.old self.new }
    {
        let Some(sum) = self.months.checked_add(more) else {
            return false;
        };
        self.months = sum;
        true
    }

    /// Adds days. `false` comes where the sum leaves its type.
    #[inline(always)]
    fn add_days(&mut self, more: i64) -> bool
        ensures { HasAdded result (only_days more) self.old self.new }
    {
        let Some(sum) = self.days.checked_add(more) else {
            return false;
        };
        self.days = sum;
        true
    }

    /// Adds microseconds. `false` comes where the sum leaves its type.
    #[inline(always)]
    fn add_time(&mut self, more: i64) -> bool
        ensures { HasAdded result (only_time more) self.old self.new }
    {
        let Some(sum) = self.microseconds.checked_add(more) else {
            return false;
        };
        self.microseconds = sum;
        true
    }

    /// Adds a whole number of this unit, negative if `minus` says so. `false` comes where a sum
    /// leaves its type.
    #[inline(always)]
    fn add(&mut self, unit: Unit, minus: bool, size: u64) -> bool
        requires { size < 2 ^ 31 }
        ensures { HasAdded result (amount (time_unit unit) minus size) self.old self.new }
    {
        match unit {
            Unit::Year => self.add_months(signed(minus, 12 * size)),
            Unit::Month => self.add_months(signed(minus, size)),
            Unit::Day => self.add_days(signed(minus, size)),
            Unit::Hour => self.add_time(signed(minus, 3_600_000_000 * size)),
            Unit::Minute => self.add_time(signed(minus, 60_000_000 * size)),
            Unit::Second => self.add_time(signed(minus, 1_000_000 * size)),
        }
    }

    /// Takes the item at the front of the text, and returns the rest. `None` comes where this
    /// reader doesn't know the item.
    #[inline(always)]
    fn take_item<'a>(&mut self, text: &'a [u8]) -> Option<&'a [u8]>
        ensures left { IfSome result
            (λ next. left_of self.old text.now ≡ left_of self.new next.now) }
        ensures long { IfSome result (λ next. length next.now < length text.now) }
    {
        let minus = sign_of(text, false);
        let Some((whole, behind)) = number_front(without_minus(text)) else {
            return None;
        };
        if behind.is_empty() {
            return None;
        }
        let letter = behind[0];
        if letter == b'.' {
            let Some((fraction, rest)) = fraction_front(behind) else {
                return None;
            };
            if !self.in_time || !self.add_time(signed(minus, 1_000_000 * whole + fraction)) {
                return None;
            }
            return Some(rest);
        }
        let (_letter, rest) = behind.split_at(1);
        let Some(unit) = unit_at(self.in_time, letter) else {
            return None;
        };
        if !self.add(unit, minus, whole) {
            return None;
        }
        Some(rest)
    }

    /// Takes the `T` or the item at the front of the text, and returns the rest. `None` comes where
    /// this reader doesn't know the item.
    #[inline(always)]
    fn take_front<'a>(&mut self, text: &'a [u8]) -> Option<&'a [u8]>
        ensures left { IfSome result
            (λ next. left_of self.old text.now ≡ left_of self.new next.now) }
        ensures long { IfSome result (λ next. length next.now < length text.now) }
    {
        let Some(rest) = after_byte(b'T', text) else {
            return self.take_item(text);
        };
        if self.in_time {
            return None;
        }
        self.in_time = true;
        Some(rest)
    }
}

/// The text without the minus that it may begin with.
#[inline(always)]
fn without_minus(text: &[u8]) -> &[u8]
    ensures { result.now ≡ without_minus text.now }
{
    if text.is_empty() {
        return text;
    }
    let (_minus, rest) = text.split_at(usize::from(text[0] == b'-'));
    rest
}

/// The number of the six digits between a point and `S` at the front of the text, and what follows
/// the `S`.
#[inline(always)]
fn fraction_front(text: &[u8]) -> Option<(u64, &[u8])>
    ensures { IfSome result (λ front. IsFraction front.0 text.now front.1.now) }
{
    let Some(digits) = after_byte(b'.', text) else {
        return None;
    };
    let Some((fraction, behind)) = number_front(digits) else {
        return None;
    };
    if digits.len() != behind.len() + 6 {
        return None;
    }
    let Some(rest) = after_byte(b'S', behind) else {
        return None;
    };
    Some((fraction, rest))
}

/// The sums of the text after its `P`. `None` comes where this reader doesn't know the text.
#[inline(always)]
fn read_items(text: &[u8]) -> Option<Sums>
    ensures { IfSome result (λ sums. left false (Ok nothing) text.now ≡ Some (Ok (sums_of sums))) }
{
    let mut sums = Sums {
        in_time: false,
        months: 0,
        days: 0,
        microseconds: 0,
    };
    let mut rest = text;
    while !rest.is_empty() {
        let Some(next) = sums.take_front(rest) else {
            return None;
        };
        rest = next;
    }
    Some(sums)
}

/// The interval of a `P` and items. `None` comes where this reader doesn't know the text, or the
/// text may be refused.
pub(super) fn read_short(text: &[u8]) -> Option<Interval>
    ensures { IfSome result (λ i. of_shape Iso8601 (iso_pairs text.now) ≡ Ok i) }
{
    if text.len() < 2 || text[0] != b'P' {
        return None;
    }
    let (_mark, rest) = text.split_at(1);
    let Some(sums) = read_items(rest) else {
        return None;
    };
    interval_within(sums.months, sums.days, sums.microseconds)
}
