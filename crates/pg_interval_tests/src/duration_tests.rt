// Durations.

use jiff::SignedDuration;
use pg_interval::Interval;

const NANOS_PER_DAY: i128 = 86_400_000_000_000;

/// Days and nanoseconds of a duration, and the days and microseconds of its interval.
const DURATIONS: [(i64, i64, Option<(i32, i64)>); 5] = [
    (2147483650, 0, Some((2147483647, 259200000000))),
    (-2147483650, 0, Some((-2147483648, -172800000000))),
    (100000000000, 0, None),
    (1, 1, Some((1, 0))),
    (0, -1999, Some((0, -1))),
];

fn is_answer(answer: Option<Interval>, parts: Option<(i32, i64)>) -> bool {
    match (answer, parts) {
        (Some(interval), Some((days, microseconds))) => {
            interval == Interval::new(0, days, microseconds)
        }
        (None, None) => true,
        _ => false,
    }
}

fn is_duration(days: i64, nanoseconds: i64, parts: Option<(i32, i64)>) -> bool {
    let total = i128::from(days) * NANOS_PER_DAY + i128::from(nanoseconds);
    match SignedDuration::try_from_nanos_i128(total) {
        Some(duration) => is_answer(Interval::from_duration(duration), parts),
        None => false,
    }
}

#[test]
fn durations(rt: HostRuntime) {
    for (days, nanoseconds, parts) in DURATIONS {
        assert!(rt; is_duration(days, nanoseconds, parts));
    }
}
