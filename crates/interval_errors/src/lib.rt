//! Why a text or a sum of fields is no interval, and the texts of these errors.
#![tactic(auto)]

ghost use Rattle.std.specs.Prelude.{◌≡◌, ◌↔◌, IsTrue, Some};
ghost use Rattle.interval_errors.specs.ErrorText.{int_error_text, decimal_error_text, reason_text, error_text};
ghost use Rattle.interval_errors.specs.declared.ParseError.TheVariants.{ParseIntErr, ParseFloatErr};

use std::fmt;

/// Why a text is no whole number.
#[derive(Clone, Copy, Debug, PartialEq, Eq)]
pub enum IntError {
    /// There is no digit.
    Empty,
    /// A byte is no digit.
    InvalidDigit,
    /// The number lies outside its field's type.
    OutOfRange,
}

/// Why a text is no decimal.
#[derive(Clone, Copy, Debug, PartialEq, Eq)]
pub enum DecimalError {
    /// There is no byte.
    Empty,
    /// It isn't a sign, digits and at most one point, with at least one digit.
    Malformed,
    /// More than 18 digits stand after the point.
    TooManyDigits,
    /// The whole part lies outside its field's type.
    OutOfRange,
}

/// Why a text or a sum of fields is no interval.
#[derive(Clone, Copy, Debug, PartialEq, Eq)]
pub enum Reason {
    /// The text has more than 4,096 bytes.
    TooLong,
    /// The text doesn't have the style's shape.
    Shape,
    /// A sum lies outside its type.
    Overflow,
}

/// Why a text or some fields stand for no interval.
#[derive(Debug, PartialEq, Eq, Drop)]
pub enum ParseError {
    /// A whole number of the text is at fault.
    ParseIntErr(IntError),
    /// A decimal of the text is at fault.
    ParseFloatErr(DecimalError),
    /// The years and months are at fault.
    InvalidYearMonth(Reason),
    /// The time is at fault.
    InvalidTime(Reason),
    /// The days, or the text as a whole, are at fault.
    InvalidInterval(Reason),
}

impl ParseError {
    /// The refusal of years and months for this reason.
    pub fn from_year_month(reason: Reason) -> ParseError
        ensures { result ≡ ParseError.InvalidYearMonth reason }
    {
        ParseError::InvalidYearMonth(reason)
    }

    /// The refusal of a time for this reason.
    pub fn from_time(reason: Reason) -> ParseError
        ensures { result ≡ ParseError.InvalidTime reason }
    {
        ParseError::InvalidTime(reason)
    }

    /// The refusal of a whole interval for this reason.
    pub fn from_invalid_interval(reason: Reason) -> ParseError
        ensures { result ≡ ParseError.InvalidInterval reason }
    {
        ParseError::InvalidInterval(reason)
    }
}

impl From<IntError> for ParseError {
    ghost from_gives = { λ error e. e ≡ ParseIntErr error };

    fn from(error: IntError) -> ParseError {
        ParseError::ParseIntErr(error)
    }
}

impl From<DecimalError> for ParseError {
    ghost from_gives = { λ error e. e ≡ ParseFloatErr error };

    fn from(error: DecimalError) -> ParseError {
        ParseError::ParseFloatErr(error)
    }
}

impl fmt::Display for ParseError {
    ghost output = { λ e. Some (error_text e) };

    /// What is at fault, and why, such as `Invalid interval: broken shape`.
    fn fmt<W: fmt::Write>(&self, f: &mut fmt::Formatter<W>) -> fmt::Result {
        match self {
            ParseError::ParseIntErr(e) => write!(f, "Failed to parse integer: {}", e.text()),
            ParseError::ParseFloatErr(e) => write!(f, "Failed to parse float: {}", e.text()),
            ParseError::InvalidYearMonth(r) => write!(
                f,
                "Invalid year/month interval: {}",
                r.text()
            ),
            ParseError::InvalidTime(r) => write!(f, "Invalid time interval: {}", r.text()),
            ParseError::InvalidInterval(r) => write!(f, "Invalid interval: {}", r.text()),
        }
    }
}

impl IntError {
    fn text(self) -> &'static str
        ensures { result.now ≡ int_error_text self }
    {
        match self {
            IntError::Empty => "empty",
            IntError::InvalidDigit => "invalid digit",
            IntError::OutOfRange => "out of range",
        }
    }
}

impl DecimalError {
    fn text(self) -> &'static str
        ensures { result.now ≡ decimal_error_text self }
    {
        match self {
            DecimalError::Empty => "empty",
            DecimalError::Malformed => "malformed",
            DecimalError::TooManyDigits => "too many digits",
            DecimalError::OutOfRange => "out of range",
        }
    }
}

impl Reason {
    fn text(self) -> &'static str
        ensures { result.now ≡ reason_text self }
    {
        match self {
            Reason::TooLong => "text too long",
            Reason::Shape => "broken shape",
            Reason::Overflow => "overflow",
        }
    }
}
