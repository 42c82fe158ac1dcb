// Sums of what the numbers of an interval's text are worth.
ghost use Rattle.std.specs.Prelude.{◌≡◌, ◌≤◌, ◌<◌, ◌+◌, ◌^◌, pos, ◌-ℤ◌, Ok, Err, true};
ghost use Rattle.pg_interval.specs.Amounts.{IsWithin};
ghost use Rattle.pg_interval.specs.Pairs.{checked, fits_field, judged, nothing};
ghost use Rattle.pg_interval.specs.Decimals.{whole_part, worth};
ghost use Rattle.pg_interval.specs.Reader.{decimal_from, joined, number_read, so_far, tallied, time_unit, with_if};
ghost use Rattle.interval_errors.specs.declared.DecimalError.TheVariants.{OutOfRange};
ghost use Rattle.interval_errors.specs.declared.ParseError.TheVariants.{ParseFloatErr};

use super::parts::{Amount, Number, Totals, Unit};
use crate::pg_interval::Interval;
use interval_errors::{DecimalError, ParseError, Reason};

impl Amount {
    /// The amount of these months, days and microseconds.
    #[inline(always)]
    pub(super) fn new(months: u128, days: u128, microseconds: u128) -> Amount
        ensures months { result.months ≡ months }
        ensures days { result.days ≡ days }
        ensures microseconds { result.microseconds ≡ microseconds }
    {
        Amount {
            months,
            days,
            microseconds,
        }
    }

    /// The sum of both if it is wanted, else this amount alone.
    #[inline(always)]
    fn with(self, wanted: bool, more: Amount) -> Amount
        requires self_within { IsWithin 16384 self }
        requires more_within { IsWithin 1 more }
        ensures { result ≡ with_if wanted self more }
    {
        if !wanted {
            return self;
        }
        Amount {
            months: self.months + more.months,
            days: self.days + more.days,
            microseconds: self.microseconds + more.microseconds,
        }
    }
}

impl Totals {
    /// No number yet.
    #[inline(always)]
    pub(super) fn new() -> Totals
        ensures sums { so_far result ≡ Ok nothing }
        ensures count { result.count ≡ 0 }
    {
        Totals {
            plus: Amount::new(0, 0, 0),
            minus: Amount::new(0, 0, 0),
            refusal: None,
            count: 0,
        }
    }

    /// Adds what the number of this unit is worth.
    #[inline(always)]
    pub(super) fn add(&mut self, unit: Unit, number: Number)
        requires fits { fits_field (time_unit unit) (whole_part (decimal_from number)) ≡ true }
        requires room { self.old.count < 16384 }
        ensures sums { so_far self.new ≡ joined (so_far self.old)
            (Ok (worth (time_unit unit) (decimal_from number))) }
        ensures count { self.new.count ≡ self.old.count + 1 }
    {
        let size = number.size(unit);
        self.plus = self.plus.with(!number.negative, size);
        self.minus = self.minus.with(number.negative, size);
        self.count += 1;
    }

    /// Adds what a decimal of this unit is worth, or keeps why it failed.
    #[inline(always)]
    pub(super) fn take(&mut self, unit: Unit, number: Result<Number, DecimalError>)
        requires { self.old.count < 16384 }
        ensures sums { so_far self.new
            ≡ tallied (ParseFloatErr OutOfRange) (time_unit unit) (checked (number_read number))
            (so_far self.old) }
        ensures count { self.new.count ≤ self.old.count + 1 }
    {
        match number {
            Ok(decimal) => {
                if decimal.fits(unit) {
                    self.add(unit, decimal);
                } else {
                    self.refuse(ParseError::ParseFloatErr(DecimalError::OutOfRange));
                }
            }
            Err(error) => self.refuse(ParseError::ParseFloatErr(error)),
        }
    }

    /// Keeps the error, unless an earlier number failed.
    #[inline(always)]
    pub(super) fn refuse(&mut self, error: ParseError)
        ensures sums { so_far self.new ≡ joined (so_far self.old) (Err error) }
        ensures count { self.new.count ≡ self.old.count }
    {
        if self.refusal.is_none() {
            self.refusal = Some(error);
        }
    }

    /// The interval of the three sums, or the error.
    pub(super) fn interval(self) -> Result<Interval, ParseError>
        ensures { result ≡ judged (so_far self) }
    {
        if let Some(error) = self.refusal {
            return Err(error);
        }
        let Ok(months) = i32::try_from(difference(self.plus.months, self.minus.months)) else {
            return Err(ParseError::InvalidYearMonth(Reason::Overflow));
        };
        let Ok(days) = i32::try_from(difference(self.plus.days, self.minus.days)) else {
            return Err(ParseError::InvalidInterval(Reason::Overflow));
        };
        let Ok(microseconds) = i64::try_from(difference(
            self.plus.microseconds,
            self.minus.microseconds,
        )) else {
            return Err(ParseError::InvalidTime(Reason::Overflow));
        };
        Ok(Interval::new(months, days, microseconds))
    }
}

/// The first number less the second.
#[inline(always)]
fn difference(plus: u128, minus: u128) -> i128
    requires plus { plus < 2 ^ 126 }
    requires minus { minus < 2 ^ 126 }
    ensures { result ≡ pos plus -ℤ pos minus }
{
    plus as i128 - minus as i128
}
