//! What rows on rotas give: moments, intervals and rotas.

ghost use Rattle.std.specs.Prelude.{IfOk, All};
ghost use Rattle.rota_moments.specs.Moments.{IsMoment};

use pg_interval::Interval;
use pg_messages::PgList;
use pg_text::IntervalStyle;
use rota_moments::{Moment, RangeError, rota};
use row_files::{Fault, three_numbers};
use std::alloc::Global;

/// The moment of a text.
pub fn moment<'t>(text: &'t str) -> Result<Moment, Fault<'t>>
    ensures { IfOk result IsMoment }
{
    match Moment::read(text) {
        Ok(moment) => Ok(moment),
        Err(_) => Err(Fault::Line(text)),
    }
}

/// An interval of three numbers: months, days, microseconds.
pub fn interval<'t>(text: &'t str) -> Result<Interval, Fault<'t>> {
    let (months, days, microseconds) = three_numbers(text)?;
    Ok(Interval::new(months, days, microseconds))
}

/// Intervals, split by commas; `-` is none.
pub fn intervals<'t>(alloc: Global, text: &'t str) -> Result<PgList<Interval>, Fault<'t>> {
    let mut all = PgList::new(alloc);
    if text == "-" {
        return Ok(all);
    }
    for part in text.split(",") {
        all.push(interval(part)?)?;
    }
    Ok(all)
}

/// The style of this name.
pub fn style_of<'t>(alloc: Global, name: &'t str) -> Result<IntervalStyle, Fault<'t>> {
    match IntervalStyle::try_from_text(alloc, name) {
        Ok(style) => Ok(style),
        Err(_) => Err(Fault::Line(name)),
    }
}

/// The moments of a rota that isn't refused.
pub fn moments_from<'t>(
    alloc: Global,
    start: &'t str,
    steps: &'t str,
) -> Result<PgList<Moment>, Fault<'t>>
    ensures { IfOk result (All IsMoment) }
{
    let first = moment(start)?;
    let steps = intervals(alloc, steps)?;
    match rota(alloc, first, steps.as_slice()) {
        Ok(moments) => Ok(moments),
        Err(_) => Err(Fault::Line(start)),
    }
}

/// The word for the part of an interval that leads out of the years.
pub fn reason_text(reason: RangeError) -> &'static str {
    match reason {
        RangeError::Months => "months",
        RangeError::Days => "days",
        RangeError::Time => "time",
    }
}
