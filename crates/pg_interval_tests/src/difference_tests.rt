// Checked differences, and those that wrap.

use crate::sum_tests::{Parts, is_answer, is_of};
use pg_interval::Interval;

/// Months, the months that are subtracted from them, and the difference.
const DIFFERENCES: [(i32, i32, Option<Parts>); 2] = [
    (-20, i32::MIN, Some((2147483628, 0, 0))),
    (0, i32::MIN, None),
];

fn is_difference(start: i32, months: i32, difference: Option<Parts>) -> bool {
    let start = Interval::new(start, 0, 0);
    is_answer(start.checked_sub(Interval::new(months, 0, 0)), difference)
}

/// Years and months that are subtracted from -20 months, and the difference.
const YEAR_MONTH_DIFFERENCES: [(i32, i32, Option<Parts>); 2] = [
    (-2147483648, 1, None),
    (1, 1, Some((-33, 0, 0))),
];

fn is_year_month_difference(years: i32, months: i32, difference: Option<Parts>) -> bool {
    let start = Interval::new(-20, 0, 0);
    is_answer(start.checked_sub_year_month(years, months), difference)
}

/// Days, hours, minutes and nanoseconds that are subtracted from -20 months, and the difference.
const DAY_TIME_DIFFERENCES: [((i32, i64, i64, i64), Option<Parts>); 2] = [
    ((1, 1, 1, 1999), Some((-20, -1, -3660000001))),
    ((i32::MIN, 0, 0, 0), None),
];

fn is_day_time_difference(time: (i32, i64, i64, i64), difference: Option<Parts>) -> bool {
    let start = Interval::new(-20, 0, 0);
    is_answer(
        start.checked_sub_day_time(time.0, time.1, time.2, time.3),
        difference,
    )
}

#[test]
fn checked_differences(rt: HostRuntime) {
    for (start, months, difference) in DIFFERENCES {
        assert!(rt; is_difference(start, months, difference));
    }
    for (years, months, difference) in YEAR_MONTH_DIFFERENCES {
        assert!(rt; is_year_month_difference(years, months, difference));
    }
    for (time, difference) in DAY_TIME_DIFFERENCES {
        assert!(rt; is_day_time_difference(time, difference));
    }
    assert!(rt; are_differences());
}

/// The nanosecond is rounded down to a microsecond before it is subtracted.
fn are_differences() -> bool {
    let start = Interval::new(-20, 0, 0);
    is_of(start.sub_year_month(1, 1), (-33, 0, 0))
        && is_of(start - Interval::new(1, 2, 3), (-21, -2, -3))
        && is_of(start.sub_day_time(1, 0, 0, -1), (-20, -1, 1))
}
