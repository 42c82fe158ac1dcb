// Reading the styles `postgres` and `postgres_verbose`.
ghost use Rattle.std.specs.Prelude.{◌≡◌, Bool, bytes_eq, ◌+◌, ◌*◌, ◌<◌, ◌≤◌, length, take, if◌then◌else◌, true, false, option_map, IfSome, MatchOption, Some, None, Ok};
ghost use Rattle.std.specs.List.{list_any};
ghost use Rattle.pg_interval.specs.Texts.{begins, is_colon, is_whitespace};
ghost use Rattle.pg_interval.specs.Pairs.{checked};
ghost use Rattle.pg_interval.specs.PostgresText.{verbose_pairs};
ghost use Rattle.pg_interval.specs.Reader.{decimal_from, number_read, so_far, time_unit};
ghost use Rattle.pg_interval.specs.Reading.{Postgres, PostgresVerbose, of_shape, reading};
ghost use Rattle.pg_interval.specs.WordReader.{IsNextToken, answered, front_left, has, held_times, left, pair_left, time_left, within_left, rest_of, start, state, taken_one, taken_word, taken_times, taken_unless_zero, times_from, times_of, unit_in, with_unit, none_seen, worded_left};

use super::front::pair_front;
use super::number::{after_byte, decimal, fraction_after, number_of, sign_of, without_sign};
use super::parts::{Clock, Number, Seen, Totals, Unit, Words};
use super::texts::{Kind, LONGEST_TEXT, cut, trim_end, trim_start};
use crate::pg_interval::Interval;
use interval_errors::{DecimalError, ParseError, Reason};

impl Seen {
    /// Has the unit a number?
    #[inline(always)]
    fn has(self, unit: Unit) -> bool
        ensures { result ≡ has self (time_unit unit) }
    {
        match unit {
            Unit::Year => self.year,
            Unit::Month => self.month,
            Unit::Day => self.day,
            Unit::Hour => self.hour,
            Unit::Minute => self.minute,
            Unit::Second => self.second,
        }
    }

    /// The same units, and this one.
    #[inline(always)]
    fn with(self, unit: Unit) -> Seen
        ensures { result ≡ with_unit self (time_unit unit) }
    {
        match unit {
            Unit::Year => Seen { year: true, ..self },
            Unit::Month => Seen {
                month: true,
                ..self
            },
            Unit::Day => Seen { day: true, ..self },
            Unit::Hour => Seen { hour: true, ..self },
            Unit::Minute => Seen {
                minute: true,
                ..self
            },
            Unit::Second => Seen {
                second: true,
                ..self
            },
        }
    }
}

impl Words {
    /// No token yet.
    #[inline(always)]
    fn new() -> Words
        ensures { state result ≡ start }
    {
        Words {
            seen: Seen {
                year: false,
                month: false,
                day: false,
                hour: false,
                minute: false,
                second: false,
            },
            totals: Totals::new(),
        }
    }

    /// Takes the number of this unit. `false` comes where the unit has one.
    #[inline(always)]
    #[tactic(auto, using(crate::proofs::SeenUnits::six_at_most, crate::proofs::SeenUnits::one_more))]
    fn take(&mut self, unit: Unit, number: Result<Number, DecimalError>) -> bool
        ensures { (if result then Some (state self.new) else None)
            ≡ taken_one (state self.old) (time_unit unit) (checked (number_read number)) }
    {
        if self.seen.has(unit) {
            return false;
        }
        self.seen = self.seen.with(unit);
        self.totals.take(unit, number);
        true
    }

    /// Takes the number of this unit unless it is zero. `false` comes where the unit has one.
    #[inline(always)]
    fn take_unless_zero(&mut self, unit: Unit, number: Number) -> bool
        ensures { (if result then Some (state self.new) else None)
            ≡ taken_unless_zero (state self.old) (time_unit unit) (decimal_from number) }
    {
        number.is_zero() || self.take(unit, Ok(number))
    }

    /// Takes the number with the unit that the word names. `false` comes where it names none, or
    /// one that has a number.
    #[inline(always)]
    fn take_pair(
        &mut self,
        number: Result<Number, DecimalError>,
        word: &[u8],
        verbose: bool,
    ) -> bool
        ensures { (if result then Some (state self.new) else None)
            ≡ taken_word verbose (state self.old) (number_read number) word.now }
    {
        let Some(unit) = unit_of(word, verbose) else {
            return false;
        };
        self.take(unit, number)
    }

    /// Takes a number and its word, and returns the next token and what follows it. `None` comes
    /// where no unit that is still free is named.
    #[inline(always)]
    fn pass_word<'a>(
        &mut self,
        number: Result<Number, DecimalError>,
        word: &[u8],
        rest: &'a [u8],
        verbose: bool,
    ) -> Option<&'a [u8]>
        ensures left { (turn : Bool) → front_left verbose turn (state self.new) (rest_of result)
            ≡ worded_left verbose turn (state self.old) (number_read number) word.now rest.now }
        ensures next { IfSome result (λ next. IsNextToken (1 + length rest.now) next.now) }
    {
        if !self.take_pair(number, word, verbose) {
            return None;
        }
        Some(trim_start(rest))
    }

    /// Takes a number as it is written and its word, and returns the next token and what follows
    /// it. `None` comes where no unit that is still free is named.
    #[inline(always)]
    fn pass_pair<'a>(
        &mut self,
        number: &[u8],
        word: &[u8],
        rest: &'a [u8],
        verbose: bool,
        turn: bool,
    ) -> Option<&'a [u8]>
        ensures left { front_left verbose turn (state self.new) (rest_of result)
            ≡ pair_left verbose turn (state self.old) number.now word.now rest.now }
        ensures next { IfSome result (λ next. IsNextToken (1 + length rest.now) next.now) }
    {
        self.pass_word(decimal(number, turn), word, rest, verbose)
    }

    /// Takes a time, and returns the next token and what follows it. `None` comes where the token
    /// is no time, or a unit of it isn't free.
    #[inline(always)]
    fn pass_time<'a>(&mut self, token: &[u8], rest: &'a [u8], turn: bool) -> Option<&'a [u8]>
        ensures left { (verbose : Bool) → front_left verbose turn (state self.new) (rest_of result)
            ≡ time_left verbose turn (state self.old) token.now rest.now }
        ensures next { IfSome result (λ next. IsNextToken (1 + length rest.now) next.now) }
    {
        let Some(clock) = clock(token, turn) else {
            return None;
        };
        if !self.take_clock(clock) {
            return None;
        }
        Some(trim_start(rest))
    }

    /// Takes the tokens at the front of the text that belong together, a time or a number and its
    /// word, and returns the rest from its next token on. `None` comes where the shape is broken.
    fn take_front<'a>(&mut self, text: &'a [u8], verbose: bool, turn: bool) -> Option<&'a [u8]>
        requires filled { 0 < length text.now }
        requires solid { begins is_whitespace text.now ≡ false }
        ensures left { front_left verbose turn (state self.new) (rest_of result)
            ≡ left verbose turn (state self.old) text.now }
        ensures next { IfSome result (λ next. IsNextToken (length text.now) next.now) }
    {
        let (token, rest) = cut(Kind::Solid, text);
        if token.contains(&b':') {
            return self.pass_time(token, rest, turn);
        }
        let (number, word) = cut(Kind::NumberByte, token);
        if number.is_empty() {
            return None;
        }
        if !word.is_empty() {
            return self.pass_pair(number, word, rest, verbose, turn);
        }
        let (next, rest) = cut(Kind::Solid, trim_start(rest));
        self.pass_pair(number, next, rest, verbose, turn)
    }

    /// Takes what `take_front` takes, and is faster where that is a small number, a space and a
    /// word.
    #[inline(always)]
    fn take_next<'a>(&mut self, text: &'a [u8], verbose: bool, turn: bool) -> Option<&'a [u8]>
        requires filled { 0 < length text.now }
        requires solid { begins is_whitespace text.now ≡ false }
        ensures left { front_left verbose turn (state self.new) (rest_of result)
            ≡ left verbose turn (state self.old) text.now }
        ensures next { IfSome result (λ next. IsNextToken (length text.now) next.now) }
    {
        let Some((number, word, rest)) = pair_front(text, turn) else {
            return self.take_front(text, verbose, turn);
        };
        self.pass_word(Ok(number), word, rest, verbose)
    }

    /// Takes the numbers of the time that aren't zero. `false` comes where a unit has one.
    fn take_clock(&mut self, clock: Clock) -> bool
        ensures { (if result then Some (state self.new) else None)
            ≡ taken_times (state self.old) (times_from clock) }
    {
        self.take_unless_zero(Unit::Hour, clock.hours)
            && self.take_unless_zero(Unit::Minute, clock.minutes)
            && self.take_unless_zero(Unit::Second, clock.seconds)
    }
}

/// Is the word this name?
#[inline(always)]
pub(super) fn is(word: &[u8], name: &str) -> bool
    ensures { result ≡ bytes_eq word.now name.now }
{
    word == name.as_bytes()
}

/// The unit that the word names, in the verbose style if `verbose` says so.
fn unit_of(word: &[u8], verbose: bool) -> Option<Unit>
    ensures { option_map time_unit result ≡ unit_in verbose word.now }
{
    if verbose && (is(word, "min") || is(word, "mins")) {
        return Some(Unit::Minute);
    }
    if verbose && (is(word, "sec") || is(word, "secs")) {
        return Some(Unit::Second);
    }
    if is(word, "year") || is(word, "years") {
        Some(Unit::Year)
    } else if is(word, "mon") || is(word, "mons") || is(word, "months") {
        Some(Unit::Month)
    } else if is(word, "day") || is(word, "days") {
        Some(Unit::Day)
    } else if is(word, "hour") || is(word, "hours") {
        Some(Unit::Hour)
    } else if is(word, "minute") || is(word, "minutes") {
        Some(Unit::Minute)
    } else if is(word, "second") || is(word, "seconds") {
        Some(Unit::Second)
    } else {
        None
    }
}

/// The sums of the text's tokens, their signs turned if `turn` says so. `None` comes where the
/// shape is broken.
fn read_words(text: &[u8], verbose: bool, turn: bool) -> Option<Totals>
    ensures { option_map so_far result ≡ left verbose turn start text.now }
{
    let mut words = Words::new();
    let mut rest = trim_start(text);
    while !rest.is_empty() {
        let Some(next) = words.take_next(rest, verbose, turn) else {
            return None;
        };
        rest = next;
    }
    Some(words.totals)
}

/// The interval of the sums. None says that the text's shape was broken.
pub(super) fn interval_of(totals: Option<Totals>) -> Result<Interval, ParseError>
    ensures { result ≡ answered (option_map so_far totals) }
{
    match totals {
        Some(totals) => totals.interval(),
        None => Err(ParseError::InvalidInterval(Reason::Shape)),
    }
}

/// The sums of the text between `@` and `ago`.
fn read_within(text: &[u8], turn: bool) -> Option<Totals>
    ensures { option_map so_far result ≡ within_left turn text.now }
{
    if is(text, "0") {
        return Some(Totals::new());
    }
    read_words(text, true, turn)
}

/// The sums of a text of the style `postgres_verbose`. `None` comes where the shape is broken.
fn read_verbose(text: &[u8]) -> Option<Totals>
    ensures { answered (option_map so_far result)
        ≡ of_shape PostgresVerbose (verbose_pairs text.now) }
{
    let Some(rest) = after_byte(b'@', trim_end(trim_start(text))) else {
        return None;
    };
    let rest = trim_start(rest);
    if !rest.ends_with("ago".as_bytes()) {
        return read_within(rest, false);
    }
    let (front, _ago) = rest.split_at(rest.len() - 3);
    read_within(trim_end(front), true)
}

impl Interval {
    /// The interval that the text stands for in the style `postgres`, as `1 year 2 mons 3 days
    /// 04:05:06.7`: times, and numbers with their words, in any order.
    ///
    /// A text of more than 4,096 bytes is `InvalidInterval(TooLong)`, and one of another shape is
    /// `InvalidInterval(Shape)`. Then comes the error of the first number that fails, a
    /// `ParseFloatErr`, and then that of a sum that leaves its type.
    pub fn from_postgres(text: &str) -> Result<Interval, ParseError>
        ensures { result ≡ reading Postgres text.now }
    {
        let text = text.as_bytes();
        if text.len() > LONGEST_TEXT {
            return Err(ParseError::InvalidInterval(Reason::TooLong));
        }
        interval_of(read_words(text, false, false))
    }

    /// The interval that the text stands for in the style `postgres_verbose`, as `@ 1 year 2 mons
    /// -3 days ago`: `@`, and what `from_postgres` reads. With `ago` at the end each number has the
    /// other sign.
    ///
    /// The errors are those of `from_postgres`.
    pub fn from_postgres_verbose(text: &str) -> Result<Interval, ParseError>
        ensures { result ≡ reading PostgresVerbose text.now }
    {
        let text = text.as_bytes();
        if text.len() > LONGEST_TEXT {
            return Err(ParseError::InvalidInterval(Reason::TooLong));
        }
        interval_of(read_verbose(text))
    }
}

/// The first six digits, or all where there are fewer.
#[inline(always)]
fn first_six(digits: &[u8]) -> &[u8]
    ensures { result.now ≡ take 6 digits.now }
{
    if digits.len() <= 6 {
        return digits;
    }
    let (front, _rest) = digits.split_at(6);
    front
}

/// The numbers of the time that the token is, their signs turned if `turn` says so. `None` comes
/// where it is no time.
fn clock(token: &[u8], turn: bool) -> Option<Clock>
    ensures { option_map times_from result ≡ option_map (held_times turn) (times_of token.now) }
{
    let minus = sign_of(token, turn);
    let (hours, rest) = cut(Kind::Digit, without_sign(token));
    let Some(rest) = after_byte(b':', rest) else {
        return None;
    };
    let (minutes, rest) = cut(Kind::Digit, rest);
    let Some(rest) = after_byte(b':', rest) else {
        return None;
    };
    let (seconds, rest) = cut(Kind::Digit, rest);
    let Some(fraction) = fraction_after(rest) else {
        return None;
    };
    if hours.is_empty() {
        return None;
    }
    if minutes.is_empty() {
        return None;
    }
    if seconds.is_empty() {
        return None;
    }
    Some(Clock {
        hours: number_of(minus, hours, b""),
        minutes: number_of(minus, minutes, b""),
        seconds: number_of(minus, seconds, first_six(fraction)),
    })
}
