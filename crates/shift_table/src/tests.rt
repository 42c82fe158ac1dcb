use super::*;
use pg_interval::Interval;
use std::alloc::Global;
use std::test::Fail;

const HOUR: i64 = 3_600_000_000;

fn shift(alloc: Global, name: &str, start: Interval, length: Interval) -> Result<Shift, NameError> {
    Ok(Shift {
        name: ShiftName::new(alloc, name)?,
        start,
        length,
    })
}

#[test]
fn shifts_that_touch_are_booked(rt: HostRuntime) -> Result<(), Fail> {
    let mut table = ShiftTable::new(rt.alloc());
    let eight = Interval::new(0, 0, 8 * HOUR);
    let nine = Interval::new(0, 0, 9 * HOUR);
    let day = Interval::new(0, 1, 0);
    table.book(shift(rt.alloc(), "ann", eight, eight)?)?;
    let early = shift(rt.alloc(), "ann", nine, day)?;
    assert_eq!(rt; table.book(early), Err(BookError::Clash));
    let touching = shift(rt.alloc(), "ann", Interval::new(0, 0, 16 * HOUR), eight)?;
    table.book(touching)?;
    let other = shift(rt.alloc(), "bob", nine, day)?;
    table.book(other)?;
    let nothing = shift(rt.alloc(), "bob", day, Interval::new(0, 0, 0))?;
    assert_eq!(rt; table.book(nothing), Err(BookError::NotPositive));
    assert_eq!(rt; table.len(), 3);
    assert_eq!(rt; table.shifts(rt.alloc())?.len(), 3);
    let name = ShiftName::new(rt.alloc(), "ann")?;
    assert_eq!(rt; table.shifts_of(rt.alloc(), name)?.len(), 2);
    Ok(())
}

#[test]
fn a_month_is_thirty_days(rt: HostRuntime) -> Result<(), Fail> {
    let mut table = ShiftTable::new(rt.alloc());
    let day = Interval::new(0, 1, 0);
    table.book(shift(rt.alloc(), "ann", Interval::new(1, 0, 0), day)?)?;
    let copy = table.clone()?;
    let thirty = Interval::new(0, 30, 0);
    let found = copy.find(ShiftName::new(rt.alloc(), "ann")?, thirty);
    assert!(rt; matches!(&found, Some(booked) if booked.start.months == 1));
    let longer = shift(rt.alloc(), "ann", thirty, Interval::new(0, 2, 0))?;
    assert_eq!(rt; table.cancel(longer), Err(UnknownShift));
    let same = shift(rt.alloc(), "ann", thirty, Interval::new(0, 0, 24 * HOUR))?;
    assert_eq!(rt; table.cancel(same), Ok(()));
    assert_eq!(rt; table.is_empty(), true);
    let found = table.find(ShiftName::new(rt.alloc(), "ann")?, thirty);
    assert!(rt; found.is_none());
    let again = shift(rt.alloc(), "ann", thirty, day)?;
    assert_eq!(rt; table.cancel(again), Err(UnknownShift));
    assert_eq!(rt; copy.len(), 1);
    assert_eq!(rt; span_of(Interval::new(-1, 30, 5)), 5);
    assert_eq!(rt;
        ShiftName::new(rt.alloc(), "").err(),
        Some(NameError::Length)
    );
    assert_eq!(rt;
        ShiftName::new(rt.alloc(), "a\0").err(),
        Some(NameError::ZeroByte)
    );
    Ok(())
}
