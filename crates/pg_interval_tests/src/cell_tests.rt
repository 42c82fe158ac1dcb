// Cells both ways, equality and copies.
ghost use Rattle.std.specs.Prelude.{◌≡◌, IfOk};

use crate::compared::Compared;
use pg_interval::Interval;
use std::alloc::AllocError;

impl Compared for Interval {
    fn is_equal(&self, other: &Interval) -> bool {
        self == other
    }
}

/// A clone is equal.
fn clone_of(a: &Interval) -> Result<Interval, AllocError>
    ensures { IfOk result (λ b. b ≡ a.now) }
{
    a.clone()
}

/// Months, days and microseconds, and their cell.
const CELLS: [(i32, i32, i64, &[u8; 16]); 4] = [
    (
        13,
        1,
        4215000000,
        b"\x00\x00\x00\x00\xfb\x3b\xcb\xc0\x00\x00\x00\x01\x00\x00\x00\x0d",
    ),
    (
        0,
        0,
        -500000,
        b"\xff\xff\xff\xff\xff\xf8\x5e\xe0\x00\x00\x00\x00\x00\x00\x00\x00",
    ),
    (
        -1,
        2,
        3000000,
        b"\x00\x00\x00\x00\x00\x2d\xc6\xc0\x00\x00\x00\x02\xff\xff\xff\xff",
    ),
    (
        i32::MIN,
        i32::MIN,
        i64::MIN,
        b"\x80\x00\x00\x00\x00\x00\x00\x00\x80\x00\x00\x00\x80\x00\x00\x00",
    ),
];

/// Is this what the cell is read as?
fn is_read(cell: &[u8], interval: Interval) -> bool {
    match Interval::from_cell(cell) {
        Some(read) => read == interval,
        None => false,
    }
}

/// Is the interval's clone equal to it?
fn is_cloned(interval: Interval) -> bool {
    match clone_of(&interval) {
        Ok(clone) => interval.is_equal(&clone),
        Err(_) => false,
    }
}

fn is_cell(interval: Interval, cell: &[u8; 16]) -> bool {
    interval.to_cell() == *cell && is_read(cell.as_slice(), interval) && is_cloned(interval)
}

#[test]
fn cells_both_ways(rt: HostRuntime) {
    for (months, days, microseconds, cell) in CELLS {
        assert!(rt; is_cell(Interval::new(months, days, microseconds), cell));
    }
    let longer = [0, 0, 0, 0, 0, 0, 0, 3, 0, 0, 0, 2, 0, 0, 0, 1, 255];
    assert!(rt; is_read(&longer, Interval::new(1, 2, 3)));
    assert!(rt; Interval::from_cell(&longer[..15]).is_none());
}
