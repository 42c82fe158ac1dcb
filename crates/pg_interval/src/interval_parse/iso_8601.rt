// Reading the style `iso_8601`.
ghost use Rattle.std.specs.Prelude.{◌≡◌, ◌<◌, ◌≤◌, ◌+◌, length, false, IfSome, Ok, option_map};
ghost use Rattle.pg_interval.specs.Decimals.{decimal_of};
ghost use Rattle.pg_interval.specs.IsoText.{is_item_number, iso_pairs};
ghost use Rattle.pg_interval.specs.ItemReader.{front_left, item_left, left, left_after, unit_at};
ghost use Rattle.pg_interval.specs.Pairs.{nothing};
ghost use Rattle.pg_interval.specs.Reader.{so_far, time_unit};
ghost use Rattle.pg_interval.specs.Reading.{Iso8601, of_shape, reading};
ghost use Rattle.pg_interval.specs.WordReader.{answered, rest_of};

use super::iso_front::read_short;
use super::number::{after_byte, decimal};
use super::parts::{Items, Totals, Unit};
use super::postgres::interval_of;
use super::texts::{Kind, LONGEST_TEXT, cut, run_len};
use crate::pg_interval::Interval;
use interval_errors::{ParseError, Reason};

/// The unit that the letter names, before the `T` or after it.
#[inline(always)]
pub(super) fn unit_at(in_time: bool, letter: u8) -> Option<Unit>
    ensures { option_map time_unit result ≡ unit_at in_time letter }
{
    if letter == b'Y' {
        Some(Unit::Year)
    } else if letter == b'M' {
        Some(if in_time { Unit::Minute } else { Unit::Month })
    } else if letter == b'D' {
        Some(Unit::Day)
    } else if letter == b'H' {
        Some(Unit::Hour)
    } else if letter == b'S' && in_time {
        Some(Unit::Second)
    } else {
        None
    }
}

/// Is it an optional minus, then digits and points?
fn is_item_number(number: &[u8]) -> bool
    ensures { result ≡ is_item_number number.now }
{
    let Some(rest) = after_byte(b'-', number) else {
        return run_len(Kind::DecimalByte, number) == number.len();
    };
    run_len(Kind::DecimalByte, rest) == rest.len()
}

impl Items {
    /// Takes the number with its letter, and returns the rest. `None` comes where they are no item.
    #[inline(always)]
    fn take_item<'a>(&mut self, number: &[u8], letter: u8, rest: &'a [u8]) -> Option<&'a [u8]>
        requires { self.old.totals.count < 16384 }
        ensures left { front_left self.new (rest_of result)
            ≡ item_left self.old.in_time (so_far self.old.totals) number.now letter rest.now }
        ensures long { IfSome result (λ next. length next.now ≤ length rest.now) }
        ensures count { self.new.totals.count ≤ self.old.totals.count + 1 }
    {
        if !is_item_number(number) {
            return None;
        }
        let Some(unit) = unit_at(self.in_time, letter) else {
            return None;
        };
        self.totals.take(unit, decimal(number, false));
        Some(rest)
    }

    /// Takes the `T` or the item at the front of the text, and returns the rest. `None` comes where
    /// the shape is broken.
    fn take_front<'a>(&mut self, text: &'a [u8]) -> Option<&'a [u8]>
        requires room { self.old.totals.count < 16384 }
        requires filled { 0 < length text.now }
        ensures left { front_left self.new (rest_of result) ≡ left_after self.old text.now }
        ensures long { IfSome result (λ next. length next.now < length text.now) }
        ensures count { self.new.totals.count ≤ self.old.totals.count + 1 }
    {
        let (number, behind) = cut(Kind::Unmarked, text);
        if behind.is_empty() {
            return None;
        }
        let letter = behind[0];
        let (_letter, rest) = behind.split_at(1);
        if letter != b'T' {
            return self.take_item(number, letter, rest);
        }
        if self.in_time {
            return None;
        }
        if !number.is_empty() {
            return None;
        }
        self.in_time = true;
        Some(rest)
    }
}

/// The sums of the text after its `P`. `None` comes where the shape is broken.
fn read_items(text: &[u8]) -> Option<Totals>
    requires { length text.now ≤ 4096 }
    ensures { option_map so_far result ≡ left false (Ok nothing) text.now }
{
    let mut items = Items {
        in_time: false,
        totals: Totals::new(),
    };
    let mut rest = text;
    while !rest.is_empty() {
        let Some(next) = items.take_front(rest) else {
            return None;
        };
        rest = next;
    }
    Some(items.totals)
}

/// The sums of a text of the style `iso_8601`. `None` comes where the shape is broken.
fn read_iso(text: &[u8]) -> Option<Totals>
    requires { length text.now ≤ 4096 }
    ensures { answered (option_map so_far result) ≡ of_shape Iso8601 (iso_pairs text.now) }
{
    if text.len() < 2 {
        return None;
    }
    if text[0] != b'P' {
        return None;
    }
    let (_mark, rest) = text.split_at(1);
    read_items(rest)
}

impl Interval {
    /// The interval that the text stands for in the style `iso_8601`, as `P1Y2M3DT4H5M6.7S`: `P`,
    /// then numbers with their letters, and a `T` before those of the time.
    ///
    /// The errors are those of `from_postgres`.
    pub fn from_iso(text: &str) -> Result<Interval, ParseError>
        ensures { result ≡ reading Iso8601 text.now }
    {
        let text = text.as_bytes();
        if text.len() > LONGEST_TEXT {
            return Err(ParseError::InvalidInterval(Reason::TooLong));
        }
        if let Some(interval) = read_short(text) {
            return Ok(interval);
        }
        interval_of(read_iso(text))
    }
}
