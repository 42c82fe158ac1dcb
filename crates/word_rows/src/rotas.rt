//! The answers to questions about rotas, as a line: texts of moments, sums, moments, totals, lines
//! and clashes.

ghost use Rattle.std.specs.Prelude.{All, length, ◌<◌, ◌^◌};
ghost use Rattle.rota_moments.specs.Moments.{IsMoment};

use crate::given::{interval, intervals, moment, moments_from, reason_text, style_of};
use pg_interval::Interval;
use pg_text::IntervalStyle;
use rota_clashes::clashes;
use rota_lines::{put_clash, put_end, put_step};
use rota_moments::{Moment, MomentError, RotaError, rota, total};
use row_files::{Fault, next_part, push_shown};
use std::alloc::{AllocError, Global};
use std::fmt::Write;

/// The answer to a question about rotas.
pub fn rota_answer<'t>(
    alloc: Global,
    question: &'t str,
    given: &'t str,
) -> Result<String, Fault<'t>> {
    let mut answer = String::new(alloc);
    put_answer(alloc, &mut answer, question, given)?;
    Ok(answer)
}

/// Puts the answer to a question about rotas.
fn put_answer<'t>(
    alloc: Global,
    answer: &mut String,
    question: &'t str,
    given: &'t str,
) -> Result<(), Fault<'t>> {
    match question {
        "read" => Ok(put_read(answer, given)?),
        "add" => put_later(answer, given),
        "rota" => put_rota(alloc, answer, given),
        "total" => put_total(alloc, answer, given),
        "lines" => put_lines(alloc, answer, given),
        "clashes" => put_clashes(alloc, answer, given),
        _ => Err(Fault::Line(question)),
    }
}

/// `TEXT`: the day, the microseconds and the printed text of the moment, or the refusal.
fn put_read(answer: &mut String, text: &str) -> Result<(), AllocError> {
    match Moment::read(text) {
        Ok(moment) => {
            let Moment { day, micro } = moment;
            write!(answer, "{day} {micro} ")?;
            moment.put(answer)
        }
        Err(MomentError::Shape) => answer.push_str("shape"),
        Err(MomentError::Field) => answer.push_str("field"),
    }
}

/// `START|STEP`: the moment after the step, or the part that leads out of the years.
fn put_later<'t>(answer: &mut String, given: &'t str) -> Result<(), Fault<'t>> {
    let (start, step) = next_part(given)?;
    let start = moment(start)?;
    let step = interval(step)?;
    match start.add(step) {
        Ok(later) => Ok(later.put(answer)?),
        Err(reason) => Ok(answer.push_str(reason_text(reason))?),
    }
}

/// `START|STEPS`: the moments, or the first step that is refused.
fn put_rota<'t>(alloc: Global, answer: &mut String, given: &'t str) -> Result<(), Fault<'t>> {
    let (start, steps) = next_part(given)?;
    let start = moment(start)?;
    let steps = intervals(alloc, steps)?;
    match rota(alloc, start, steps.as_slice()) {
        Ok(moments) => Ok(put_moments(answer, moments.as_slice())?),
        Err(RotaError::OutOfRange(place, reason)) => {
            let word = reason_text(reason);
            Ok(write!(answer, "{place} {word}")?)
        }
        Err(RotaError::NoMemory) => Err(Fault::NoMemory),
    }
}

/// Puts moments, split by commas.
fn put_moments(answer: &mut String, moments: &[Moment]) -> Result<(), AllocError>
    requires { All IsMoment moments.now }
{
    for place in 0..moments.len() {
        if place > 0 {
            answer.push(',')?;
        }
        moments[place].put(answer)?;
    }
    Ok(())
}

/// `STEPS`: the total, or the first step with which it overflows.
fn put_total<'t>(alloc: Global, answer: &mut String, given: &'t str) -> Result<(), Fault<'t>> {
    let steps = intervals(alloc, given)?;
    match total(steps.as_slice()) {
        Ok(sum) => {
            let Interval {
                months,
                days,
                microseconds,
            } = sum;
            Ok(write!(answer, "{months} {days} {microseconds}")?)
        }
        Err(place) => Ok(write!(answer, "{place}")?),
    }
}

/// `START|STYLE|STEPS`: the lines of the rota, with `\t` and `\n` for tabs and line ends.
fn put_lines<'t>(alloc: Global, answer: &mut String, given: &'t str) -> Result<(), Fault<'t>> {
    match lines_of(alloc, given)? {
        None => Err(Fault::Line(given)),
        Some(lines) => Ok(put_shown(answer, lines.as_str())?),
    }
}

/// `START|STYLE|STEPS`: the lines of the rota, and its end's; None where it is refused.
fn lines_of<'t>(alloc: Global, given: &'t str) -> Result<Option<String>, Fault<'t>> {
    let (start, rest) = next_part(given)?;
    let (style, steps) = next_part(rest)?;
    let start = moment(start)?;
    let style = style_of(alloc, style)?;
    let steps = intervals(alloc, steps)?;
    match rota(alloc, start, steps.as_slice()) {
        Ok(moments) => Ok(rota_lines(alloc, steps.as_slice(), moments.as_slice(), style)?),
        Err(_) => Ok(None),
    }
}

/// The lines of a rota of these steps and moments, and its end's; None where there is no total.
fn rota_lines(
    alloc: Global,
    steps: &[Interval],
    moments: &[Moment],
    style: IntervalStyle,
) -> Result<Option<String>, AllocError>
    requires { All IsMoment moments.now }
{
    let Ok(sum) = total(steps) else {
        return Ok(None);
    };
    if moments.is_empty() {
        return Ok(None);
    }
    let mut text = String::new(alloc);
    put_steps(&mut text, steps, moments, style)?;
    put_end(&mut text, &moments[moments.len() - 1], &sum, style)?;
    Ok(Some(text))
}

/// Puts the lines of these steps.
fn put_steps(
    text: &mut String,
    steps: &[Interval],
    moments: &[Moment],
    style: IntervalStyle,
) -> Result<(), AllocError>
    requires { All IsMoment moments.now }
{
    for place in 0..steps.len() {
        if place < moments.len() {
            put_step(text, place as u64, &moments[place], &steps[place], style)?;
        }
    }
    Ok(())
}

/// Puts a text with `\t` and `\n` for tabs and line ends.
fn put_shown(answer: &mut String, text: &str) -> Result<(), AllocError> {
    for c in text.chars() {
        push_shown(answer, c)?;
    }
    Ok(())
}

/// `START|STEPS|START|STEPS`: the lines of the clashes, with `\n` for line ends.
fn put_clashes<'t>(alloc: Global, answer: &mut String, given: &'t str) -> Result<(), Fault<'t>> {
    let (start, rest) = next_part(given)?;
    let (steps, rest) = next_part(rest)?;
    let first = moments_from(alloc, start, steps)?;
    let (start, steps) = next_part(rest)?;
    let second = moments_from(alloc, start, steps)?;
    put_clashes_of(alloc, answer, first.as_slice(), second.as_slice(), given)
}

/// Puts the lines of the clashes of two rotas, unless one that was given has too many moments.
fn put_clashes_of<'t>(
    alloc: Global,
    answer: &mut String,
    first: &[Moment],
    second: &[Moment],
    given: &'t str,
) -> Result<(), Fault<'t>>
    requires first_valid { All IsMoment first.now }
    requires second_valid { All IsMoment second.now }
{
    if first.len() > 4_294_967_295 || second.len() > 4_294_967_295 {
        return Err(Fault::Line(given));
    }
    let lines = clash_lines(alloc, first, second)?;
    Ok(put_shown(answer, lines.as_str())?)
}

/// The lines of the clashes of two rotas.
fn clash_lines(alloc: Global, first: &[Moment], second: &[Moment]) -> Result<String, AllocError>
    requires first_valid { All IsMoment first.now }
    requires second_valid { All IsMoment second.now }
    requires first_few { length first.now < 2 ^ 32 }
    requires second_few { length second.now < 2 ^ 32 }
{
    let pairs = clashes(alloc, first, second)?;
    let mut text = String::new(alloc);
    for pair in pairs.as_slice() {
        put_clash(&mut text, pair.0, pair.1)?;
    }
    Ok(text)
}
