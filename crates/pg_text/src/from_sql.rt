ghost use Rattle.std.specs.Prelude.{ℕ, Bool, List, Result, ◌≡◌};

use pg_interval::Interval;
use pg_types::{CellError, PgType};

/// A value that is read from a cell in the binary format of its type.
pub trait FromSql: Sized {
    ghost use Rattle.pg_types.specs.declared.pg_type.PgType.{PgType};
    ghost use Rattle.pg_types.specs.declared.error.CellError.{CellError};

    // the value of a cell's bytes in a column of a type, or why there is none
    ghost read: { PgType → List ℕ → Result Self CellError };

    ghost accepted: { PgType → Bool };

    /// Whether such values are read from a column of this type.
    fn accepts(ty: PgType) -> bool
        ensures { result ≡ accepted ty };

    /// The value of these bytes, whether the type is accepted or not. No memory is taken.
    fn from_sql(ty: PgType, raw: &[u8]) -> Result<Self, CellError>
        ensures { result ≡ read ty raw.now };
}

impl FromSql for Interval {
    ghost use Rattle.pg_text.specs.Intervals.{is_interval_type, read_interval};

    ghost read = { λ _ raw. read_interval raw };

    ghost accepted = { is_interval_type };

    fn accepts(ty: PgType) -> bool {
        matches!(ty, PgType::Interval)
    }

    /// The interval whose cell the first sixteen bytes are. Later bytes are ignored. `ShortCell`
    /// comes below sixteen bytes.
    fn from_sql(_ty: PgType, raw: &[u8]) -> Result<Interval, CellError> {
        match Interval::from_cell(raw) {
            Some(interval) => Ok(interval),
            None => Err(CellError::ShortCell),
        }
    }
}

impl<T: FromSql> FromSql for Option<T> {
    ghost use Rattle.pg_text.specs.Cells.{some_of};

    ghost read = { λ ty raw. some_of (T.read ty raw) };

    ghost accepted = { T.accepted };

    fn accepts(ty: PgType) -> bool {
        T::accepts(ty)
    }

    fn from_sql(ty: PgType, raw: &[u8]) -> Result<Option<T>, CellError> {
        Ok(Some(T::from_sql(ty, raw)?))
    }
}
