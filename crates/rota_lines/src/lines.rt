//! Lines that tell a rota, and lines that tell its clashes with another.

ghost use Rattle.std.specs.Prelude.{◌≡◌, ◌++◌, OnOk, codes, decimal, string_bytes};
ghost use Rattle.pg_text.specs.Words.{printed_style};
ghost use Rattle.rota_moments.specs.Moments.{IsMoment};
ghost use Rattle.rota_lines.specs.Lines.{line, line_rest, clash_line, Stands};

use pg_interval::Interval;
use pg_text::IntervalStyle;
use rota_moments::Moment;
use std::alloc::AllocError;
use std::fmt::Write;

/// What a line tells behind its label: a moment, and an interval in a style.
#[derive(Clone, Copy)]
pub(crate) struct Told {
    pub(crate) moment: Moment,
    pub(crate) interval: Interval,
    pub(crate) style: IntervalStyle,
    ghost valid: { IsMoment moment },
}

/// Puts the line of a step at the end of a text: its number, the moment that it starts from, and
/// its interval in the style, split by tabs. After AllocError, which comes where memory ran out, a
/// front of the line may stand there.
pub fn put_step(
    text: &mut String,
    number: u64,
    moment: &Moment,
    step: &Interval,
    style: IntervalStyle,
) -> Result<(), AllocError>
    requires { IsMoment moment.now }
    ensures line { OnOk result (string_bytes text.new
        ≡ string_bytes text.old ++ line (printed_style style) (decimal number) moment.now
        step.now) }
    ensures stands { OnOk result (Stands (printed_style style) step.now) }
{
    write!(text, "{number}")?;
    let told = Told {
        moment: *moment,
        interval: *step,
        style,
    };
    put_rest(text, told)
}

/// Puts the last line of a rota: `end`, the last moment, and the total of the steps in the style,
/// split by tabs. After AllocError, which comes where memory ran out, a front of the line may stand
/// there.
pub fn put_end(
    text: &mut String,
    moment: &Moment,
    total: &Interval,
    style: IntervalStyle,
) -> Result<(), AllocError>
    requires { IsMoment moment.now }
    ensures line { OnOk result (string_bytes text.new
        ≡ string_bytes text.old ++ line (printed_style style) (codes "end") moment.now total.now) }
    ensures stands { OnOk result (Stands (printed_style style) total.now) }
{
    text.push_str("end")?;
    let told = Told {
        moment: *moment,
        interval: *total,
        style,
    };
    put_rest(text, told)
}

/// Puts what stands behind a line's label.
#[tactic(auto, unfolding(crate::specs::Lines::line_rest))]
fn put_rest(text: &mut String, told: Told) -> Result<(), AllocError>
    ensures rest { OnOk result (string_bytes text.new
        ≡ string_bytes text.old ++ line_rest (printed_style told.style) told.moment told.interval) }
    ensures stands { OnOk result (Stands (printed_style told.style) told.interval) }
{
    text.push('\t')?;
    told.moment.put(text)?;
    text.push('\t')?;
    let interval = told.style.text(&told.interval);
    text.push_str(interval.as_str())?;
    text.push('\n')
}

/// Puts the line of a clash: the places of both shifts, a space between them. After AllocError,
/// which comes where memory ran out, a front of the line may stand there.
pub fn put_clash(text: &mut String, first: u32, second: u32) -> Result<(), AllocError>
    ensures { OnOk result (string_bytes text.new
        ≡ string_bytes text.old ++ clash_line (first, second)) }
{
    write!(text, "{first} {second}\n")
}
