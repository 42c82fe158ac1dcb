//! The moments of a rota, and the total of its steps.

ghost use Rattle.std.specs.Prelude.{◌≡◌, IfOk, All};
ghost use Rattle.rota_moments.specs.Moments.{IsMoment};
ghost use Rattle.rota_moments.specs.Rotas.{IsRota, IsTotal};

use crate::moment::{Moment, RangeError};
use pg_interval::Interval;
use pg_messages::PgList;
use std::alloc::{AllocError, Global};

/// Why a rota has no moments.
#[derive(Clone, Copy, Debug, PartialEq, Eq)]
pub enum RotaError {
    /// The step at this place, counted from 0, is the first that leads out of the years 1 to 9999,
    /// by this part of it.
    OutOfRange(u64, RangeError),
    /// Memory ran out.
    NoMemory,
}

impl From<AllocError> for RotaError {
    ghost use Rattle.std.specs.Prelude.{◌≡◌};
    ghost use Rattle.rota_moments.specs.declared.rotas.RotaError.TheVariants.{NoMemory};

    ghost from_gives = { λ _ e. e ≡ NoMemory };

    fn from(_e: AllocError) -> RotaError {
        RotaError::NoMemory
    }
}

/// The moments of a rota: start, and each moment plus its step, one more than there are steps.
/// OutOfRange tells the first step that is refused, and NoMemory comes where memory ran out.
pub fn rota(alloc: Global, start: Moment, steps: &[Interval]) -> Result<PgList<Moment>, RotaError>
    requires { IsMoment start }
    ensures moments { IsRota start steps.now result }
    ensures valid { IfOk result (All IsMoment) }
{
    let mut moments = PgList::new(alloc);
    moments.push(start)?;
    let mut last = start;
    for (place, step) in steps.iter().enumerate() {
        last = match last.add(*step) {
            Ok(next) => next,
            Err(reason) => return Err(RotaError::OutOfRange(place as u64, reason)),
        };
        moments.push(last)?;
    }
    Ok(moments)
}

/// The total of the steps: the sums of their months, days and microseconds. The error is the place,
/// counted from 0, of the first step with which one of the three sums doesn't fit its type.
pub fn total(steps: &[Interval]) -> Result<Interval, u64>
    ensures { IsTotal steps.now result }
{
    let mut sum = Interval::new(0, 0, 0);
    for (place, step) in steps.iter().enumerate() {
        match sum.checked_add(*step) {
            Some(next) => sum = next,
            None => return Err(place as u64),
        }
    }
    Ok(sum)
}
