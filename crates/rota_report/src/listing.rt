//! The report of a rota whose steps were read.

ghost use Rattle.std.specs.Prelude.{◌≤◌, Some};
ghost use Rattle.pg_text.specs.Words.{printed_style};
ghost use Rattle.rota_report.specs.Outcomes.{HasListed};

use crate::failure::Failure;
use conversation_runs::Sink;
use pg_interval::Interval;
use pg_text::IntervalStyle;
use rota_lines::report;
use rota_words::RotaWords;
use std::alloc::Global;

/// Writes the report of the rota that words name, over these steps.
pub(crate) fn write_report<K: Sink>(
    alloc: Global,
    rota: RotaWords<'_>,
    steps: &[Interval],
    style: IntervalStyle,
    out: &mut K,
) -> Result<(), Failure>
    ensures listed { HasListed rota.entry.start (printed_style style) (Some steps.now) result
        (K.written out.old) (K.written out.new) (K.faults out.old) (K.faults out.new) }
    ensures never_falls { K.faults out.old ≤ K.faults out.new }
{
    match report(alloc, rota.start, steps, style, out) {
        Ok(()) => Ok(()),
        Err(error) => Err(Failure::from(error)),
    }
}
