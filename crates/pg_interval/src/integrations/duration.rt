ghost use Rattle.std.specs.Prelude.{◌≡◌, FitsSigned};
ghost use Rattle.std.specs.Option.{SomeIff};
ghost use Rattle.std.specs.Int.{w64};
ghost use Rattle.jiff.specs.Words.{signed_nanos, IsDurationNanos};
ghost use Rattle.pg_interval.specs.Duration.{whole_days, duration_interval};

use crate::pg_interval::Interval;
use jiff::SignedDuration;

const NANOS_PER_DAY: i128 = 86_400_000_000_000;

const NANOS_PER_MICRO: i128 = 1000;

impl Interval {
    /// The interval of a duration: its whole days, toward zero and at most as many as `i32` holds,
    /// and the microseconds of the rest, toward zero. `None` comes where these leave `i64`.
    pub fn from_duration(duration: SignedDuration) -> Option<Interval>
        ensures { let interval = duration_interval (signed_nanos duration) in
            SomeIff result (FitsSigned w64 interval.microseconds) interval }
    {
        let nanos = duration.as_nanos();
        let Ok(microseconds) = i64::try_from(rest_in_microseconds(nanos)) else {
            return None;
        };
        Some(Interval::new(0, whole_days(nanos), microseconds))
    }
}

/// The whole days in these nanoseconds, toward zero and at most as many as `i32` holds.
fn whole_days(nanos: i128) -> i32
    ensures { result ≡ whole_days nanos }
{
    let days = nanos / NANOS_PER_DAY;
    days.clamp(i128::from(i32::MIN), i128::from(i32::MAX)) as i32
}

/// The microseconds in what the whole days leave of these nanoseconds, toward zero.
fn rest_in_microseconds(nanos: i128) -> i128
    requires { IsDurationNanos nanos }
    ensures { result ≡ (duration_interval nanos).microseconds }
{
    let rest = nanos - i128::from(whole_days(nanos)) * NANOS_PER_DAY;
    rest / NANOS_PER_MICRO
}
