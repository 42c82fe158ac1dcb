//! The clashes of two rotas whose steps were read.

ghost use Rattle.std.specs.Prelude.{◌≤◌, ◌<◌, ◌+◌, ◌^◌, Some, length};
ghost use Rattle.rota_moments.specs.Moments.{IsMoment};
ghost use Rattle.rota_report.specs.Outcomes.{HasCompared};

use crate::failure::Failure;
use conversation_runs::Sink;
use pg_interval::Interval;
use rota_clashes::clashes;
use rota_lines::write_clashes;
use rota_moments::{Moment, rota};
use std::alloc::Global;

/// Writes the lines of the clashes of two rotas.
#[tactic(auto, using(crate::proofs::SinkLemmas::never_falls_at))]
pub(crate) fn write_comparison<K: Sink>(
    alloc: Global,
    start: Moment,
    steps: &[Interval],
    other: Moment,
    others: &[Interval],
    out: &mut K,
) -> Result<(), Failure>
    requires start_valid { IsMoment start }
    requires other_valid { IsMoment other }
    requires few { length steps.now + 1 < 2 ^ 32 }
    requires others_few { length others.now + 1 < 2 ^ 32 }
    ensures compared { HasCompared start other (Some steps.now) (Some others.now) result
        (K.written out.old) (K.written out.new) (K.faults out.old) (K.faults out.new) }
    ensures never_falls { K.faults out.old ≤ K.faults out.new }
{
    let first = rota(alloc, start, steps)?;
    let second = rota(alloc, other, others)?;
    let pairs = clashes(alloc, first.as_slice(), second.as_slice())?;
    match write_clashes(alloc, pairs.as_slice(), out) {
        Ok(()) => Ok(()),
        Err(error) => Err(Failure::from(error)),
    }
}
