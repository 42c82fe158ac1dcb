// Numbers of an interval's text, each with its unit.
ghost use Rattle.std.specs.Prelude.{◌≡◌, ◌+◌, ◌*◌, ◌^◌, ◌≤◌, length, not, true, false, ◌∷◌, ◌==◌, if◌then◌else◌, MatchOption};
ghost use Rattle.std.specs.List.{list_all};
ghost use Rattle.std.specs.Str.Parse.{digits_value};
ghost use Rattle.pg_interval.specs.Texts.{begins, is_digit, is_minus, without_sign};
ghost use Rattle.pg_interval.specs.Decimals.{decimal_of, is_zero_decimal, number_of, whole_part};
ghost use Rattle.pg_interval.specs.Amounts.{IsWithin};
ghost use Rattle.pg_interval.specs.Pairs.{fits_field};
ghost use Rattle.pg_interval.specs.Reader.{capped, capped_decimal, decimal_from, fraction_after, number_held, number_read, rounded_size, size_of, time_unit};

use super::parts::{Amount, Number, Unit};
use super::texts::{Kind, cut, is_sign, run_len};
use interval_errors::DecimalError;

/// The most digits after the point.
const MOST_PLACES: usize = 18;

/// The number that the digits write, or the greatest u64 where the number is larger.
#[inline(always)]
pub(super) fn digits_value(digits: &[u8]) -> u64
    requires { list_all is_digit digits.now ≡ true }
    ensures { result ≡ capped (digits_value 10 digits.now) }
{
    let mut value = 0u64;
    for digit in digits {
        value = value
            .saturating_mul(10)
            .saturating_add(u64::from(*digit - b'0'));
    }
    value
}

/// The text without the sign that it may begin with.
#[inline(always)]
pub(super) fn without_sign(text: &[u8]) -> &[u8]
    ensures rest { result.now ≡ without_sign text.now }
    ensures long { length result.now ≤ length text.now }
{
    if text.is_empty() {
        return text;
    }
    let (_sign, rest) = text.split_at(usize::from(is_sign(text[0])));
    rest
}

/// The decimal that the text is, its sign turned if `turn` says so: an optional sign, digits, and
/// at most one point.
pub(super) fn decimal(text: &[u8], turn: bool) -> Result<Number, DecimalError>
    ensures { number_read result ≡ number_held turn (decimal_of text.now) }
{
    if text.is_empty() {
        return Err(DecimalError::Empty);
    }
    let (whole, rest) = cut(Kind::Digit, without_sign(text));
    let Some(fraction) = fraction_after(rest) else {
        return Err(DecimalError::Malformed);
    };
    if whole.len() + fraction.len() == 0 {
        return Err(DecimalError::Malformed);
    }
    if fraction.len() > MOST_PLACES {
        return Err(DecimalError::TooManyDigits);
    }
    Ok(number_of(sign_of(text, turn), whole, fraction))
}

/// Is the text's sign, turned if `turn` says so, a minus?
#[inline(always)]
pub(super) fn sign_of(text: &[u8], turn: bool) -> bool
    ensures { result ≡ (if turn then not (begins is_minus text.now) else begins is_minus text.now) }
{
    let minus = !text.is_empty() && text[0] == b'-';
    if turn { !minus } else { minus }
}

/// The number that digits before and after the point make.
#[inline(always)]
pub(super) fn number_of(negative: bool, whole: &[u8], fraction: &[u8]) -> Number
    requires whole { list_all is_digit whole.now ≡ true }
    requires fraction { list_all is_digit fraction.now ≡ true }
    requires few { length fraction.now ≤ 18 }
    ensures { decimal_from result ≡ capped_decimal (number_of negative whole.now fraction.now) }
{
    Number {
        negative,
        whole: digits_value(whole),
        fraction: digits_value(fraction),
        places: fraction.len() as u32,
    }
}

/// The digits after the point, or no digits where nothing is left. `None` comes where anything else
/// is left.
#[inline(always)]
pub(super) fn fraction_after(rest: &[u8]) -> Option<&[u8]>
    ensures { MatchOption result (fraction_after rest.now ≡ None) (λ f. fraction_after rest.now
        ≡ Some f.now) }
{
    if rest.is_empty() {
        return Some(rest);
    }
    let (_point, digits) = rest.split_at(1);
    if rest[0] != b'.' {
        return None;
    }
    if run_len(Kind::Digit, digits) < digits.len() {
        return None;
    }
    Some(digits)
}

/// What follows this byte at the front of the text. `None` comes where the text doesn't begin with
/// it.
#[inline(always)]
pub(super) fn after_byte(byte: u8, text: &[u8]) -> Option<&[u8]>
    ensures { MatchOption result (begins (λ c. c == byte) text.now ≡ false) (λ rest. text.now
        ≡ byte ∷ rest.now) }
{
    if text.is_empty() || text[0] != byte {
        return None;
    }
    let (_byte, rest) = text.split_at(1);
    Some(rest)
}

impl Number {
    /// Is it zero?
    #[inline(always)]
    pub(super) fn is_zero(self) -> bool
        ensures { result ≡ is_zero_decimal (decimal_from self) }
    {
        self.whole == 0 && self.fraction == 0
    }

    /// Does the unit's field hold the whole part?
    #[inline(always)]
    pub(super) fn fits(self, unit: Unit) -> bool
        ensures { result ≡ fits_field (time_unit unit) (whole_part (decimal_from self)) }
    {
        let least = match unit {
            Unit::Year | Unit::Month | Unit::Day => 1 << 31,
            Unit::Hour | Unit::Minute | Unit::Second => 1 << 63,
        };
        self.whole < least || (self.negative && self.whole == least)
    }

    /// The part after the point, as a number of `parts`-ths of the unit, rounded half up.
    #[inline(always)]
    fn rounded(self, parts: u64) -> u128
        requires { parts ≤ 1000000 }
        ensures value { result ≡ rounded_size parts (decimal_from self) }
        ensures bound { result ≤ parts * 2 ^ 65 + 2 ^ 64 }
    {
        if self.fraction == 0 {
            return 0;
        }
        let scale = 10u64.pow(self.places);
        (2 * u128::from(parts) * u128::from(self.fraction) + u128::from(scale))
            / (2 * u128::from(scale))
    }

    /// What the number of this unit is worth, without its sign.
    #[inline(always)]
    pub(super) fn size(self, unit: Unit) -> Amount
        requires { fits_field (time_unit unit) (whole_part (decimal_from self)) ≡ true }
        ensures size { result ≡ size_of (time_unit unit) (decimal_from self) }
        ensures within { IsWithin 1 result }
    {
        let whole = u128::from(self.whole);
        match unit {
            Unit::Year => Amount::new(12 * whole + self.rounded(12), 0, 0),
            Unit::Month => Amount::new(whole, self.rounded(30), 0),
            Unit::Day => Amount::new(0, whole, 3_600_000_000 * self.rounded(24)),
            Unit::Hour => {
                Amount::new(0, 0, 3_600_000_000 * whole + 60_000_000 * self.rounded(60))
            }
            Unit::Minute => { Amount::new(0, 0, 60_000_000 * whole + 1_000_000 * self.rounded(60)) }
            Unit::Second => Amount::new(0, 0, 1_000_000 * whole + self.rounded(1_000_000)),
        }
    }
}
