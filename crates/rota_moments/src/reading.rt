//! Moments that texts stand for.

ghost use Rattle.std.specs.Prelude.{◌≡◌, ◌<◌, IfSome, IfNone, IfOk};
ghost use Rattle.rota_moments.specs.declared.moment.Moment.{Moment};
ghost use Rattle.rota_moments.specs.Calendar.{CivilDate, civil_date};
ghost use Rattle.rota_moments.specs.Moments.{IsMoment};
ghost use Rattle.rota_moments.specs.Texts.{Clock, HasForm, IsReading};
ghost use Rattle.rota_moments.specs.Fields.{fields, fields_of, pair_of, date_in, clock_in, IsDayOf, IsMomentOf};

use crate::calendar::day_of;
use crate::moment::Moment;
use jiff::civil::Date;

/// Why a text stands for no moment.
#[derive(Clone, Copy, Debug, PartialEq, Eq)]
pub enum MomentError {
    /// It isn't of the form `YYYY-MM-DDTHH:MM:SS`.
    Shape,
    /// It is of this form, but has no date of the years 1 to 9999, an hour above 23, or a minute or
    /// second above 59.
    Field,
}

/// The six numbers of a text.
#[derive(Clone, Copy)]
struct Fields {
    year: u32,
    month: u32,
    day: u32,
    hour: u32,
    minute: u32,
    second: u32,
}

impl Moment {
    /// The moment that a text stands for: `YYYY-MM-DDTHH:MM:SS`, 19 bytes with ASCII digits, from
    /// 0001-01-01T00:00:00 to 9999-12-31T23:59:59. Shape comes where the text has another form;
    /// else Field, where the date isn't one of the years 1 to 9999, the hour is above 23, or the
    /// minute or the second above 59. No memory is taken.
    pub fn read(text: &str) -> Result<Moment, MomentError>
        ensures reading { IsReading text.now result }
        ensures valid { IfOk result IsMoment }
        ensures complete { (m : Moment) → IsReading text.now (Ok m) → result ≡ Ok m }
    {
        match read_fields(text.as_bytes()) {
            None => Err(MomentError::Shape),
            Some(fields) => match moment_of(fields) {
                None => Err(MomentError::Field),
                Some(moment) => Ok(moment),
            },
        }
    }
}

/// The numbers of a text of the form `YYYY-MM-DDTHH:MM:SS`.
fn read_fields(text: &[u8]) -> Option<Fields>
    ensures value { result ≡ fields_of text.now }
{
    let [
        c1,
        c2,
        y1,
        y2,
        b'-',
        m1,
        m2,
        b'-',
        d1,
        d2,
        b'T',
        h1,
        h2,
        b':',
        i1,
        i2,
        b':',
        s1,
        s2,
    ] = text
    else {
        return None;
    };
    fields_from(
        read_pair(*c1, *c2),
        read_pair(*y1, *y2),
        read_pair(*m1, *m2),
        read_pair(*d1, *d2),
        read_pair(*h1, *h2),
        read_pair(*i1, *i2),
        read_pair(*s1, *s2),
    )
}

/// The six numbers of all pairs of digits, the first two of which make the year.
fn fields_from(
    century: Option<u32>,
    year: Option<u32>,
    month: Option<u32>,
    day: Option<u32>,
    hour: Option<u32>,
    minute: Option<u32>,
    second: Option<u32>,
) -> Option<Fields>
    requires century { IfSome century (λ n. n < 100) }
    requires year { IfSome year (λ n. n < 100) }
    ensures { result ≡ fields century year month day hour minute second }
{
    Some(Fields {
        year: 100 * century? + year?,
        month: month?,
        day: day?,
        hour: hour?,
        minute: minute?,
        second: second?,
    })
}

/// The number of two digits.
fn read_pair(tens: u8, ones: u8) -> Option<u32>
    ensures value { result ≡ pair_of tens ones }
    ensures small { IfSome result (λ n. n < 100) }
{
    if tens.is_ascii_digit() && ones.is_ascii_digit() {
        Some(u32::from(tens - b'0') * 10 + u32::from(ones - b'0'))
    } else {
        None
    }
}

/// The moment of a date and a time of day, if they are one.
fn moment_of(fields: Fields) -> Option<Moment>
    requires year { fields.year < 10000 }
    requires month { fields.month < 100 }
    requires day { fields.day < 100 }
    ensures value { IsMomentOf (date_in fields) (clock_in fields) result }
    ensures valid { IfSome result IsMoment }
{
    if fields.hour > 23 || fields.minute > 59 || fields.second > 59 {
        return None;
    }
    match read_day(fields.year, fields.month, fields.day) {
        None => None,
        Some(day) => {
            let second = (fields.hour * 60 + fields.minute) * 60 + fields.second;
            let micro = u64::from(second) * 1_000_000;
            Some(Moment { day, micro })
        }
    }
}

/// The day of a date, if it is one of the years 1 to 9999.
fn read_day(year: u32, month: u32, day: u32) -> Option<i32>
    requires year_in { year < 10000 }
    requires month_in { month < 100 }
    requires day_in { day < 100 }
    ensures { IsDayOf (civil_date year month day) result }
{
    match Date::new(year as i16, month as i8, day as i8) {
        Ok(date) => day_of(date),
        Err(_) => None,
    }
}
