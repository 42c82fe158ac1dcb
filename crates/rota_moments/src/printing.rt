//! The texts of moments.

ghost use Rattle.std.specs.Prelude.{◌≡◌, ◌<◌, ◌+◌, ◌++◌, ◌∷◌, [], IfOk, OnOk, string_bytes};
ghost use Rattle.pg_interval.specs.Printed.{last_digits};
ghost use Rattle.rota_moments.specs.Calendar.{date_of};
ghost use Rattle.rota_moments.specs.Moments.{IsMoment};
ghost use Rattle.rota_moments.specs.Texts.{clock_of, date_text, clock_text, fraction_text, moment_text};

use crate::calendar::date_at;
use crate::moment::Moment;
use pg_messages::PgStr;
use std::alloc::{AllocError, Global};

/// How many microseconds a second has.
const SECOND_MICROS: u64 = 1_000_000;

impl Moment {
    /// The text `YYYY-MM-DD HH:MM:SS`, with `.` and six digits behind it where there are
    /// microseconds of a second. AllocError comes where memory ran out.
    pub fn print(&self, alloc: Global) -> Result<PgStr, AllocError>
        requires { IsMoment self.now }
        ensures { IfOk result (λ text. text ≡ moment_text self.now) }
    {
        let mut text = String::new(alloc);
        self.put(&mut text)?;
        PgStr::copy_of(alloc, text.as_str())
    }

    /// Puts the text that `print` gives at the end of another. After AllocError, which comes where
    /// memory ran out, a front of it may stand there.
    #[tactic(auto, unfolding(crate::specs::Texts::moment_text))]
    pub fn put(&self, text: &mut String) -> Result<(), AllocError>
        requires { IsMoment self.now }
        ensures { OnOk result (string_bytes text.new
            ≡ string_bytes text.old ++ moment_text self.now) }
    {
        self.put_date(text)?;
        text.push(' ')?;
        put_clock(text, self.micro)?;
        put_fraction(text, self.micro % SECOND_MICROS)
    }

    /// Puts its date: `YYYY-MM-DD`.
    fn put_date(&self, text: &mut String) -> Result<(), AllocError>
        requires { IsMoment self.now }
        ensures { OnOk result (string_bytes text.new
            ≡ string_bytes text.old ++ date_text (date_of self.now.day)) }
    {
        let date = date_at(self.day).to_plain();
        put_year(text, date.year as u64)?;
        text.push('-')?;
        put_two(text, u64::from(date.month))?;
        text.push('-')?;
        put_two(text, u64::from(date.day))
    }
}

/// Puts the time of day, to the second: `HH:MM:SS`.
fn put_clock(text: &mut String, micro: u64) -> Result<(), AllocError>
    requires { micro < 86400000000 }
    ensures { OnOk result (string_bytes text.new
        ≡ string_bytes text.old ++ clock_text (clock_of micro)) }
{
    put_two(text, micro / 3_600_000_000)?;
    text.push(':')?;
    put_two(text, micro / 60_000_000 % 60)?;
    text.push(':')?;
    put_two(text, micro / SECOND_MICROS % 60)
}

/// Puts `.` and the six digits of microseconds, unless there are none.
#[tactic(auto, using(crate::proofs::DigitLemmas::six_by_pairs))]
fn put_fraction(text: &mut String, micros: u64) -> Result<(), AllocError>
    requires { micros < 1000000 }
    ensures { OnOk result (string_bytes text.new ≡ string_bytes text.old ++ fraction_text micros) }
{
    if micros == 0 {
        return Ok(());
    }
    text.push('.')?;
    put_two(text, micros / 10_000)?;
    put_two(text, micros / 100 % 100)?;
    put_two(text, micros % 100)
}

/// Puts the four digits of a year.
#[tactic(auto, using(crate::proofs::DigitLemmas::four_by_pairs))]
fn put_year(text: &mut String, year: u64) -> Result<(), AllocError>
    requires { year < 10000 }
    ensures { OnOk result (string_bytes text.new ≡ string_bytes text.old ++ last_digits 4 year) }
{
    put_two(text, year / 100)?;
    put_two(text, year % 100)
}

/// Puts the two digits of a number.
#[tactic(auto, using(crate::proofs::DigitLemmas::two_digits))]
fn put_two(text: &mut String, number: u64) -> Result<(), AllocError>
    requires { number < 100 }
    ensures { OnOk result (string_bytes text.new ≡ string_bytes text.old ++ last_digits 2 number) }
{
    put_digit(text, number / 10)?;
    put_digit(text, number % 10)
}

/// Puts a digit.
fn put_digit(text: &mut String, digit: u64) -> Result<(), AllocError>
    requires { digit < 10 }
    ensures { OnOk result (string_bytes text.new ≡ string_bytes text.old ++ (48 + digit) ∷ []) }
{
    text.push(char::from(b'0' + digit as u8))
}
