//! Where a shift stands in the table, and what is kept there.

ghost use Rattle.std.specs.Prelude.{◌≡◌, ◌+ℤ◌};
ghost use Rattle.shift_table.specs.Spans.{span_of};

use crate::name::ShiftName;
use crate::shift::{end_of, span_of};
use pg_interval::Interval;
use std::alloc::AllocError;

/// The name of a shift, and its start in microseconds. Places are ordered by the name first.
#[derive(Debug, PartialEq, Eq, PartialOrd, Ord, Drop)]
pub(crate) struct Place {
    pub(crate) name: ShiftName,
    pub(crate) start: i128,
}

/// When a shift starts, and how long it lasts.
#[derive(Debug)]
pub(crate) struct Hours {
    pub(crate) start: Interval,
    pub(crate) length: Interval,
}

impl Copy for Hours {}

impl Clone for Hours {
    ghost is_clone = { λ hours copy. copy ≡ hours };

    fn clone(&self) -> Result<Hours, AllocError> {
        Ok(*self)
    }
}

impl Clone for Place {
    ghost is_clone = { λ place copy. copy ≡ place };

    fn clone(&self) -> Result<Place, AllocError> {
        Ok(Place {
            name: self.name.clone()?,
            start: self.start,
        })
    }
}

/// The place of a shift.
pub(crate) fn place_of(name: ShiftName, start: Interval) -> Place
    ensures { result ≡ record { name = name; start = span_of start } }
{
    let moment = span_of(start);
    Place {
        name,
        start: moment,
    }
}

/// The place of a shift that would start where this one ends.
pub(crate) fn place_behind(name: ShiftName, start: Interval, length: Interval) -> Place
    ensures { result ≡ record { name = name; start = span_of start +ℤ span_of length } }
{
    let moment = end_of(start, length);
    Place {
        name,
        start: moment,
    }
}
