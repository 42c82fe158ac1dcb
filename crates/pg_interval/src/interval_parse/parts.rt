// The parts that a reader makes of an interval's text.
ghost use Rattle.std.specs.Prelude.{◌≤◌};
ghost use Rattle.pg_interval.specs.Amounts.{IsWithin, units_in};

use interval_errors::ParseError;

/// A unit of an interval's text.
#[derive(Clone, Copy)]
pub(super) enum Unit {
    Year,
    Month,
    Day,
    Hour,
    Minute,
    Second,
}

/// A number of a text: whole + fraction / 10 ^ places, negated if it is negative. A whole part that
/// no u64 holds is kept as the greatest u64, which lies outside every field.
#[derive(Clone, Copy)]
pub(super) struct Number {
    pub(super) negative: bool,
    pub(super) whole: u64,
    pub(super) fraction: u64,
    pub(super) places: u32,
    ghost few: { places ≤ 18 },
}

/// Months, days and microseconds without a sign.
#[derive(Clone, Copy)]
pub(super) struct Amount {
    pub(super) months: u128,
    pub(super) days: u128,
    pub(super) microseconds: u128,
}

/// The sums of the numbers so far, or the error of the first of them that failed.
#[derive(Drop)]
pub(super) struct Totals {
    pub(super) plus: Amount,
    pub(super) minus: Amount,
    pub(super) refusal: Option<ParseError>,
    pub(super) count: usize,
    ghost plus_within: { IsWithin count plus },
    ghost minus_within: { IsWithin count minus },
    ghost few: { count ≤ 16384 },
}

/// The units that have a number so far.
#[derive(Clone, Copy)]
pub(super) struct Seen {
    pub(super) year: bool,
    pub(super) month: bool,
    pub(super) day: bool,
    pub(super) hour: bool,
    pub(super) minute: bool,
    pub(super) second: bool,
}

/// The sums of the tokens so far, with at most one number of each unit.
#[derive(Drop)]
pub(super) struct Words {
    pub(super) seen: Seen,
    pub(super) totals: Totals,
    ghost one_each: { totals.count ≤ units_in seen },
}

/// The numbers of a time.
#[derive(Clone, Copy)]
pub(super) struct Clock {
    pub(super) hours: Number,
    pub(super) minutes: Number,
    pub(super) seconds: Number,
}

/// The sums of the items so far, and whether the `T` was among them.
#[derive(Drop)]
pub(super) struct Items {
    pub(super) in_time: bool,
    pub(super) totals: Totals,
}
