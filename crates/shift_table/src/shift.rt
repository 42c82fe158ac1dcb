//! A shift, and how intervals are compared.

ghost use Rattle.std.specs.Prelude.{◌≡◌, pos, ◌+ℤ◌, ◌*ℤ◌};
ghost use Rattle.std.specs.Ordering.{int_eq};
ghost use Rattle.shift_table.specs.Spans.{span_of};

use crate::name::ShiftName;
use pg_interval::Interval;

/// A shift: whose it is, when it starts and how long it lasts. The start counts from a moment that
/// all shifts of a table share.
#[derive(Debug, Drop)]
pub struct Shift {
    pub name: ShiftName,
    pub start: Interval,
    pub length: Interval,
}

/// An interval as one number of microseconds, by which PostgreSQL orders intervals: a month counts
/// as thirty days, and a day as 24 hours.
pub fn span_of(interval: Interval) -> i128
    ensures { result ≡ span_of interval }
{
    days_of(interval) * 86_400_000_000 + i128::from(interval.microseconds)
}

/// The days of an interval, and thirty for each month.
fn days_of(interval: Interval) -> i128
    ensures { result ≡ (interval.months *ℤ pos 30) +ℤ interval.days }
{
    i128::from(interval.months) * 30 + i128::from(interval.days)
}

/// The moment that lies a length behind a start.
pub(crate) fn end_of(start: Interval, length: Interval) -> i128
    ensures { result ≡ span_of start +ℤ span_of length }
{
    span_of(start) + span_of(length)
}

/// Whether two intervals are one length.
pub(crate) fn is_same_span(first: Interval, second: Interval) -> bool
    ensures { result ≡ int_eq (span_of first) (span_of second) }
{
    span_of(first) == span_of(second)
}
