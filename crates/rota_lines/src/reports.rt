//! The report of a rota.

ghost use Rattle.std.specs.Prelude.{◌≤◌, All, Ok, OnOk};
ghost use Rattle.pg_text.specs.Words.{printed_style};
ghost use Rattle.rota_moments.specs.Moments.{IsMoment};
ghost use Rattle.rota_moments.specs.Rotas.{IsTotal};
ghost use Rattle.rota_lines.specs.Lines.{Stands};
ghost use Rattle.pg_interval.specs.declared.pg_interval.Interval.{Interval};
ghost use Rattle.rota_lines.specs.Report.{HasReported};

use crate::writing::write_rota;
use conversation_runs::{Sink, SinkError};
use pg_interval::Interval;
use pg_text::IntervalStyle;
use rota_moments::{Moment, RotaError, rota, total};
use std::alloc::Global;

/// Why a rota isn't reported.
#[derive(Clone, Copy, Debug, PartialEq, Eq)]
pub enum ReportError {
    /// A step leads out of the years 1 to 9999. Where memory ran out, the error is `NoMemory` below.
    Rota(RotaError),
    /// The step at this place, counted from 0, is the first with which the total is no interval.
    TotalOverflow(u64),
    /// A write failed.
    WriteFault,
    /// Memory ran out.
    NoMemory,
}

/// Writes the report of a rota: for each step a line of its number, counted from 0, the moment that
/// it starts from and its interval in the style; and last a line of `end`, the last moment and the
/// total. Tabs split the fields, and each line ends with `\n`. The text is written by pieces of
/// some 64 KiB.
///
/// The moments and the total are made first. Rota tells the first step that is refused, and else
/// TotalOverflow the first step with which the total is no interval; then nothing was written.
/// WriteFault comes only where the sink's count of faults rose, and NoMemory where memory ran out;
/// then a front of the text may stand written.
pub fn report<K: Sink>(
    alloc: Global,
    start: Moment,
    steps: &[Interval],
    style: IntervalStyle,
    sink: &mut K,
) -> Result<(), ReportError>
    requires { IsMoment start }
    ensures reported { HasReported start steps.now (printed_style style) result
        (K.written sink.old) (K.written sink.new) (K.faults sink.old) (K.faults sink.new) }
    // Each interval's text stands for it, and for no other; and so does the total's.
    ensures stand { OnOk result (All (Stands (printed_style style)) steps.now) }
    ensures total_stands { OnOk result ((total : Interval) × IsTotal steps.now (Ok total)
        × Stands (printed_style style) total) }
    ensures never_falls { K.faults sink.old ≤ K.faults sink.new }
{
    let moments = match rota(alloc, start, steps) {
        Ok(moments) => moments,
        Err(RotaError::NoMemory) => return Err(ReportError::NoMemory),
        Err(refused) => return Err(ReportError::Rota(refused)),
    };
    let total = match total(steps) {
        Ok(total) => total,
        Err(place) => return Err(ReportError::TotalOverflow(place)),
    };
    match write_rota(alloc, steps, moments.as_slice(), &total, style, sink) {
        Ok(()) => Ok(()),
        Err(SinkError::Failed) => Err(ReportError::WriteFault),
        Err(SinkError::NoMemory) => Err(ReportError::NoMemory),
    }
}
