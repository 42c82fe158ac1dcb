//! The shifts of a rota that aren't empty.

ghost use Rattle.std.specs.Prelude.{◌≡◌, ◌+◌, ◌≤◌, ◌<◌, ◌^◌, length, IfOk, OnOk, All};
ghost use Rattle.std.specs.List.Sorted.{IsNonDecreasingBy};
ghost use Rattle.rota_moments.specs.Moments.{IsMoment};
ghost use Rattle.rota_clashes.specs.Shifts.{micros_up_to, start_of, AreShifts, HasShift, AreBetween};

use rota_moments::Moment;
use std::alloc::{AllocError, Global};

/// How many microseconds a day has.
const DAY_MICROS: u64 = 86_400_000_000;

/// A shift that isn't empty.
#[derive(Clone, Copy)]
pub(crate) struct Shift {
    /// The microseconds from 0001-01-01 to its beginning.
    pub(crate) start: u64,
    /// The microseconds from 0001-01-01 to its end, at which it isn't on any more.
    pub(crate) stop: u64,
    /// Its place in the rota, counted from 0.
    pub(crate) place: u32,
}

/// The microseconds from 0001-01-01 up to a moment.
fn micros_up_to(moment: Moment) -> u64
    requires { IsMoment moment }
    ensures { result ≡ micros_up_to moment }
{
    (moment.day + 719_162).unsigned_abs() as u64 * DAY_MICROS + moment.micro
}

/// Appends the shift at a place, if it isn't empty.
fn push_shift(shifts: &mut Vec<Shift>, moments: &[Moment], place: usize) -> Result<(), AllocError>
    requires valid { All IsMoment moments.now }
    requires few { length moments.now < 2 ^ 32 }
    requires within { place + 1 < length moments.now }
    ensures { OnOk result (HasShift place moments.now shifts.old.items shifts.new.items) }
{
    let start = micros_up_to(moments[place]);
    let stop = micros_up_to(moments[place + 1]);
    if stop <= start {
        return Ok(());
    }
    shifts.push(Shift {
        start,
        stop,
        place: place as u32,
    })?;
    Ok(())
}

/// The shifts of a rota that aren't empty, by their beginnings.
pub(crate) fn shifts_of(alloc: Global, moments: &[Moment]) -> Result<Vec<Shift>, AllocError>
    requires valid { All IsMoment moments.now }
    requires few { length moments.now < 2 ^ 32 }
    ensures shifts { IfOk result (λ shifts. AreShifts moments.now shifts.items) }
    ensures in_order { IfOk result (λ shifts. IsNonDecreasingBy start_of shifts.items) }
{
    let mut shifts = Vec::new(alloc);
    for place in 0..moments.len().saturating_sub(1) {
        push_shift(&mut shifts, moments, place)?;
    }
    shifts.sort_unstable_by_key(|shift| shift.start);
    Ok(shifts)
}

/// Those of the shifts that begin from `low` on and before `high`.
pub(crate) fn begun_between(shifts: &[Shift], low: u64, high: u64) -> &[Shift]
    requires { IsNonDecreasingBy start_of shifts.now }
    ensures { AreBetween shifts.now result.now low high }
{
    let from = shifts.partition_point(|shift| shift.start < low);
    let to = shifts.partition_point(|shift| shift.start < high);
    if to <= from {
        return &shifts[..0];
    }
    &shifts[from..to]
}
