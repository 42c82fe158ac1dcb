ghost use Rattle.std.specs.Prelude.{Bool, ◌≡◌};
ghost use Rattle.pg_text.specs.Cells.{Cell, IsAnswer, WritesCell, checked};

use bytes::BytesMut;
use pg_interval::Interval;
use pg_types::{CellError, PgType};

/// Whether a value was null.
#[derive(Clone, Copy, Debug, PartialEq, Eq)]
pub enum IsNull {
    Yes,
    No,
}

/// A value that writes its cell in the binary format of its type.
pub trait ToSql {
    ghost use Rattle.pg_types.specs.declared.pg_type.PgType.{PgType};

    // the cell of a value in a column of a type
    ghost binary: { Self → PgType → Cell };

    ghost accepted: { PgType → Bool };

    /// Whether such values can be written to a column of this type.
    fn accepts(ty: PgType) -> bool
        ensures { result ≡ accepted ty };

    /// Appends the value's bytes, at most 32,000, whether the type is accepted or not. A null has
    /// none. After an error nothing is appended.
    fn to_sql(&self, ty: PgType, out: &mut BytesMut) -> Result<IsNull, CellError>
        ensures answer { IsAnswer (binary self.now ty) result }
        ensures written { WritesCell (binary self.now ty) result out.old.items out.new.items };

    /// Appends the value's bytes as `to_sql` does. `WrongType` comes where the type isn't accepted,
    /// and before every other error.
    fn to_sql_checked(&self, ty: PgType, out: &mut BytesMut) -> Result<IsNull, CellError>
        ensures answer { IsAnswer (checked (accepted ty) (binary self.now ty)) result }
        ensures written { WritesCell (binary self.now ty) result out.old.items out.new.items }
    {
        if !Self::accepts(ty) {
            return Err(CellError::WrongType);
        }
        self.to_sql(ty, out)
    }
}

impl ToSql for Interval {
    ghost use Rattle.std.specs.Prelude.{Ok, Some};
    ghost use Rattle.pg_interval.specs.Cell.{interval_cell};
    ghost use Rattle.pg_text.specs.Intervals.{is_interval_type};

    ghost binary = { λ interval _. Ok (Some (interval_cell interval)) };

    ghost accepted = { is_interval_type };

    fn accepts(ty: PgType) -> bool {
        matches!(ty, PgType::Interval)
    }

    #[inline(always)]
    fn to_sql(&self, _ty: PgType, out: &mut BytesMut) -> Result<IsNull, CellError> {
        out.extend_from_slice(&self.to_cell())?;
        Ok(IsNull::No)
    }
}

impl<T: ToSql> ToSql for &T {
    ghost binary = { λ value ty. T.binary value.now ty };

    ghost accepted = { T.accepted };

    fn accepts(ty: PgType) -> bool {
        T::accepts(ty)
    }

    fn to_sql(&self, ty: PgType, out: &mut BytesMut) -> Result<IsNull, CellError> {
        (**self).to_sql(ty, out)
    }
}

impl<T: ToSql> ToSql for Option<T> {
    ghost use Rattle.pg_text.specs.Cells.{cell_if_some};

    ghost binary = { λ value ty. cell_if_some (λ x. T.binary x ty) value };

    ghost accepted = { T.accepted };

    fn accepts(ty: PgType) -> bool {
        T::accepts(ty)
    }

    fn to_sql(&self, ty: PgType, out: &mut BytesMut) -> Result<IsNull, CellError> {
        match self {
            Some(value) => value.to_sql(ty, out),
            None => Ok(IsNull::Yes),
        }
    }
}
