ghost use Rattle.std.specs.Prelude.{◌≡◌, ℕ, ◌+◌, ◌<◌, ◌≤◌, ◌↔◌, length, take, slice_range, IfOk, IfSome, IsNone, IsTrue};
ghost use Rattle.pg_interval.specs.Cell.{int64_bytes, int32_bytes, interval_cell, IsInterval};

/// A span of time as PostgreSQL keeps it: months, days and microseconds, which are never carried
/// into one another.
#[derive(Clone, Copy, Debug, PartialEq, Eq)]
pub struct Interval {
    pub months: i32,
    pub days: i32,
    pub microseconds: i64,
}

impl Interval {
    /// The interval of these months, days and microseconds.
    pub fn new(months: i32, days: i32, microseconds: i64) -> Interval
        ensures months { result.months ≡ months }
        ensures days { result.days ≡ days }
        ensures microseconds { result.microseconds ≡ microseconds }
    {
        Interval {
            months,
            days,
            microseconds,
        }
    }

    /// The interval in the binary format of PostgreSQL, sixteen bytes: Int64 microseconds, Int32
    /// days, Int32 months, each in two's complement with the high byte first.
    pub fn to_cell(&self) -> [u8; 16]
        ensures { result ≡ interval_cell self.now }
    {
        let [a, b, c, d, e, f, g, h] = self.microseconds.to_be_bytes();
        let [i, j, k, l] = self.days.to_be_bytes();
        let [m, n, o, p] = self.months.to_be_bytes();
        [a, b, c, d, e, f, g, h, i, j, k, l, m, n, o, p]
    }

    /// The interval whose cell the first sixteen bytes are. Later bytes are ignored.
    /// `None` comes below sixteen bytes.
    pub fn from_cell(cell: &[u8]) -> Option<Interval>
        ensures short { IsNone result ↔ (length cell.now < 16) }
        ensures cell { IfSome result (λ i. take 16 cell.now ≡ interval_cell i) }
        // so `from_cell` of what `to_cell` gives is that interval again
        ensures inverse { (i : Interval) → IsInterval i → take 16 cell.now ≡ interval_cell i
            → result ≡ Some i }
    {
        if cell.len() < 16 {
            return None;
        }
        Some(Interval {
            months: int32_at(cell, 12),
            days: int32_at(cell, 8),
            microseconds: int64_at(cell, 0),
        })
    }
}

/// The Int64 at this place.
fn int64_at(bytes: &[u8], start: usize) -> i64
    requires { start + 8 ≤ length bytes.now }
    ensures { slice_range bytes.now start (start + 8) ≡ int64_bytes result }
{
    let mut octets = [0; 8];
    octets.copy_from_slice(&bytes[start..start + 8]);
    i64::from_be_bytes(octets)
}

/// The Int32 at this place.
fn int32_at(bytes: &[u8], start: usize) -> i32
    requires { start + 4 ≤ length bytes.now }
    ensures { slice_range bytes.now start (start + 4) ≡ int32_bytes result }
{
    let mut octets = [0; 4];
    octets.copy_from_slice(&bytes[start..start + 4]);
    i32::from_be_bytes(octets)
}
