// Checked sums, and those that wrap.

use pg_interval::Interval;

/// Months, days and microseconds.
pub(crate) type Parts = (i32, i32, i64);

/// Are these the interval's numbers?
pub(crate) fn is_of(interval: Interval, parts: Parts) -> bool {
    interval == Interval::new(parts.0, parts.1, parts.2)
}

/// Are these the answer's numbers?
pub(crate) fn is_answer(answer: Option<Interval>, parts: Option<Parts>) -> bool {
    match (answer, parts) {
        (Some(interval), Some(parts)) => is_of(interval, parts),
        (None, None) => true,
        _ => false,
    }
}

/// Months, the parts that are added to them, and the sum.
const SUMS: [(i32, Parts, Option<Parts>); 2] = [
    (13, (2147483647, 1, 12), None),
    (13, (2147483634, 1, 12), Some((2147483647, 1, 12))),
];

fn is_sum(start: i32, other: Parts, sum: Option<Parts>) -> bool {
    let start = Interval::new(start, 0, 0);
    is_answer(
        start.checked_add(Interval::new(other.0, other.1, other.2)),
        sum,
    )
}

/// Months, the days, hours, minutes and nanoseconds that are added to them, and the sum.
const DAY_TIME_SUMS: [(i32, (i32, i64, i64, i64), Option<Parts>); 5] = [
    (13, (2, 0, 0, 2123456789), Some((13, 2, 2123456))),
    // The hours and the minutes fit, and their sum doesn't.
    (0, (0, 2562047788, 1, 0), None),
    (0, (0, 2562047788, 0, 54775807999), Some((0, 0, i64::MAX))),
    (0, (0, 2562047788, 0, 54775808000), None),
    (0, (0, 2562047789, -1, 0), None),
];

fn is_day_time_sum(start: i32, time: (i32, i64, i64, i64), sum: Option<Parts>) -> bool {
    let start = Interval::new(start, 0, 0);
    is_answer(
        start.checked_add_day_time(time.0, time.1, time.2, time.3),
        sum,
    )
}

/// Years and months that are added to -2,000,000,000 months, and the sum. The years and months are
/// joined first. That may overflow where adding one after the other would not.
const YEAR_MONTH_SUMS: [(i32, i32, Option<Parts>); 2] = [
    (178956970, 100, None),
    (178956970, 7, Some((147483647, 0, 0))),
];

fn is_year_month_sum(years: i32, months: i32, sum: Option<Parts>) -> bool {
    let start = Interval::new(-2000000000, 0, 0);
    is_answer(start.checked_add_year_month(years, months), sum)
}

#[test]
fn checked_sums(rt: HostRuntime) {
    for (start, other, sum) in SUMS {
        assert!(rt; is_sum(start, other, sum));
    }
    for (start, time, sum) in DAY_TIME_SUMS {
        assert!(rt; is_day_time_sum(start, time, sum));
    }
    for (years, months, sum) in YEAR_MONTH_SUMS {
        assert!(rt; is_year_month_sum(years, months, sum));
    }
    assert!(rt; are_sums());
}

fn are_sums() -> bool {
    let below = Interval::new(0, 0, 0).add_day_time(0, 0, 0, -1);
    let months = Interval::new(13, 0, 0) + Interval::new(-14, 1, 12);
    let years = Interval::new(-2000000000, 0, 0).add_year_month(178956970, 100);
    is_of(below, (0, 0, -1)) && is_of(months, (-1, 1, 12)) && is_of(years, (147483740, 0, 0))
}
