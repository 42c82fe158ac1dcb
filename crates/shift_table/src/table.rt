//! The table.

ghost use Rattle.std.specs.Prelude.{◌≡◌, [], ℤ, pos, ◌≤ℤ◌, ◌<ℤ◌, length, is_ok, IfOk, OnOk, OnErr, IsTrue, ◌↔◌};
ghost use Rattle.std.specs.List.{list_any};
ghost use Rattle.std.specs.Result.{IsErrOf};
ghost use Rattle.std.specs.List.Sorted.{IsStrictlySortedBy};
ghost use Rattle.shift_table.specs.Spans.{span_of};
ghost use Rattle.shift_table.specs.Shifts.{meets, clashes, is_shift, shift_cmp, found, booked, canceled, shifts_of, IsTimetable};
ghost use Rattle.shift_table.specs.Kept.{shift_at};
ghost use Rattle.shift_table.specs.declared.table.BookError.TheVariants as error;

use crate::name::ShiftName;
use crate::place::{Hours, Place, place_behind, place_of};
use crate::shift::{Shift, end_of, is_same_span, span_of};
use pg_interval::Interval;
use std::alloc::{AllocError, AllocFailed, Global};
use std::collections::BTreeMap;
use std::marker::Model;
use std::ops::Bound;

/// A table of shifts, in the order of their names and of their starts under one name. Each shift
/// lasts for some time, and no two of one name overlap. Moments and lengths are compared as
/// PostgreSQL compares intervals, so `1 month` and `30 days` are the same.
#[derive(Drop)]
pub struct ShiftTable {
    hours: BTreeMap<Place, Hours>,
}

impl Model for ShiftTable {
    ghost use Rattle.std.specs.Prelude.{List};
    ghost use Rattle.shift_table.specs.declared.shift.Shift.{Shift};
    ghost use Rattle.shift_table.specs.Kept.{shifts_in, IsKept};

    ghost Value = { List Shift };

    ghost view = { λ t. shifts_in t.hours.entries };

    ghost invariant = { λ t. IsKept t.hours.entries };
}

/// Why a shift isn't booked.
#[derive(Clone, Copy, Debug, PartialEq, Eq)]
pub enum BookError {
    /// Its length isn't above zero.
    NotPositive,
    /// A shift of its name that is booked overlaps it.
    Clash,
    /// There was no memory for it.
    NoMemory,
}

impl<T: Drop> From<AllocFailed<T>> for BookError {
    ghost from_gives = { λ _ e. e ≡ error.NoMemory };

    fn from(_error: AllocFailed<T>) -> BookError {
        BookError::NoMemory
    }
}

/// This shift isn't booked.
#[derive(Clone, Copy, Debug, PartialEq, Eq)]
pub struct UnknownShift;

impl ShiftTable {
    /// The empty table, which takes no memory.
    pub fn new(alloc: Global) -> ShiftTable
        ensures { result ≡ [] }
    {
        ShiftTable {
            hours: BTreeMap::new(alloc),
        }
    }

    /// How many shifts are booked. They are in order, each lasts, and no two clash.
    pub fn len(&self) -> usize
        ensures len { result ≡ length self.now }
        ensures ordered { IsStrictlySortedBy shift_cmp self.now }
        ensures timetable { IsTimetable self.now }
    {
        self.hours.len()
    }

    /// Whether no shift is booked.
    pub fn is_empty(&self) -> bool
        ensures { IsTrue result ↔ (length self.now ≡ 0) }
    {
        self.hours.is_empty()
    }

    /// Books a shift, by two look-ups. After an error nothing has changed.
    pub fn book(&mut self, shift: Shift) -> Result<(), BookError>
        ensures ok { OnOk result (self.new ≡ booked self.old shift) }
        ensures not_positive { IsErrOf result error.NotPositive ↔ (span_of shift.length ≤ℤ pos 0) }
        ensures clash { IsErrOf result error.Clash
            ↔ ((pos 0 <ℤ span_of shift.length) × IsTrue (list_any (clashes shift) self.old)) }
        ensures err { OnErr result (self.new ≡ self.old) }
        ensures timetable { OnOk result (IsTimetable self.new) }
    {
        if span_of(shift.length) <= 0 {
            return Err(BookError::NotPositive);
        }
        let Shift {
            name,
            start,
            length,
        } = shift;
        let until = place_behind(name, start, length);
        if self.is_taken(start, &until) {
            return Err(BookError::Clash);
        }
        let Place { name, start: _ } = until;
        let place = place_of(name, start);
        self.hours.insert(place, Hours { start, length })?;
        Ok(())
    }

    /// Cancels a shift, by two look-ups. Where it isn't booked, nothing changes.
    pub fn cancel(&mut self, shift: Shift) -> Result<(), UnknownShift>
        ensures known { is_ok result ≡ list_any (is_shift shift) self.old }
        ensures canceled { OnOk result (self.new ≡ canceled self.old shift.name shift.start) }
        ensures err { OnErr result (self.new ≡ self.old) }
        ensures timetable { IsTimetable self.new }
    {
        let Shift {
            name,
            start,
            length,
        } = shift;
        let place = place_of(name, start);
        match self.hours.get(&place) {
            Some(hours) if is_same_span(length, hours.length) => {
                self.hours.remove(&place);
                Ok(())
            }
            _ => Err(UnknownShift),
        }
    }

    /// The shift of a name that starts at a moment, as it was booked, if there is one; by one
    /// look-up.
    pub fn find(&self, name: ShiftName, start: Interval) -> Option<Shift>
        ensures { result ≡ found self.now name start }
    {
        let place = place_of(name, start);
        let hours = *self.hours.get(&place)?;
        let Place { name, start: _ } = place;
        let Hours { start, length } = hours;
        Some(Shift {
            name,
            start,
            length,
        })
    }

    /// A copy of each shift, in their order.
    pub fn shifts(&self, alloc: Global) -> Result<Vec<Shift>, AllocError>
        ensures { IfOk result (λ shifts. shifts.items ≡ self.now) }
    {
        let mut shifts = Vec::with_capacity(alloc, self.hours.len())?;
        for (place, hours) in self.hours.iter() {
            shifts.push(copy_of(place, hours)?)?;
        }
        Ok(shifts)
    }

    /// A copy of each shift of a name, in the order of their starts.
    pub fn shifts_of(&self, alloc: Global, name: ShiftName) -> Result<Vec<Shift>, AllocError>
        ensures { IfOk result (λ shifts. shifts.items ≡ shifts_of self.now name) }
    {
        let first = Place {
            name: name.clone()?,
            start: i128::MIN,
        };
        let last = Place {
            name,
            start: i128::MAX,
        };
        let mut shifts = Vec::new(alloc);
        for (place, hours) in self
            .hours
            .range((Bound::Included(&first), Bound::Included(&last)))
        {
            shifts.push(copy_of(place, hours)?)?;
        }
        Ok(shifts)
    }

    /// Whether a shift of a place's name has a part in the time from a start up to the place's
    /// moment. It is decided by the last one of the name that starts before the end of that time:
    /// those before it end before it starts.
    fn is_taken(&self, start: Interval, until: &Place) -> bool
        ensures { result ≡ list_any (meets until.now.name (span_of start) until.now.start) self.now }
    {
        match self.hours.range(..until).next_back() {
            Some((place, hours)) => {
                until.name == place.name && span_of(start) < end_of(hours.start, hours.length)
            }
            None => false,
        }
    }
}

/// The shift of an entry.
fn copy_of(place: &Place, hours: &Hours) -> Result<Shift, AllocError>
    ensures { IfOk result (λ shift. shift ≡ shift_at (place.now, hours.now)) }
{
    Ok(Shift {
        name: place.name.clone()?,
        start: hours.start,
        length: hours.length,
    })
}

impl Clone for ShiftTable {
    ghost is_clone = { λ table copy. copy ≡ table };

    /// A table of the same shifts, by a copy of each.
    fn clone(&self) -> Result<ShiftTable, AllocError> {
        Ok(ShiftTable {
            hours: self.hours.clone()?,
        })
    }
}
