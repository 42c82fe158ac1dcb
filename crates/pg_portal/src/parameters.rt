//! Parameters of portals, read as values.

ghost use Rattle.std.specs.Prelude.{◌≡◌};
ghost use Rattle.pg_portal.specs.Parameters.{parameter, parsed, read_in};
ghost use Rattle.pg_results.specs.Told.{IsOutcome};
ghost use Rattle.pg_portal.specs.Told.{bound_of};

use crate::portal::Portal;
use pg_messages::PgStr;
use pg_results::{PgWireError, RowSource};
use pg_text::{CellError, FieldFormat, FormatOptions, FromSql, FromSqlText, PgType};
use std::alloc::Global;

impl<S: Drop, R: RowSource> Portal<S, R> {
    /// The parameter at an index, read as a value of a type, or None for a null. Its format is that
    /// of the portal at this index; a text is read with the default options.
    ///
    /// `InvalidRustTypeForParameter`, with the type's name, comes where such a value isn't read
    /// from that type. Next, `ParameterIndexOutOfBound` comes where the index is past the
    /// parameters or past the individual formats. Then `FailedToParseParameter` comes with the
    /// error of the bytes. Where memory runs out, the error is `NoMemory`.
    pub fn parameter<T: FromSql + FromSqlText>(
        &self,
        alloc: Global,
        idx: usize,
        pg_type: PgType,
    ) -> Result<Option<T>, PgWireError>
        ensures { IsOutcome
            (parameter T.accepted T.FromSql.read T.FromSqlText.read (bound_of self.now) idx pg_type)
            result }
    {
        if !T::accepts(pg_type) {
            let name = PgStr::copy_of(alloc, pg_type.name())?;
            return Err(PgWireError::InvalidRustTypeForParameter(name));
        }
        let format = match self.parameter_format.format_for(idx) {
            Some(format) => format,
            None => return Err(PgWireError::ParameterIndexOutOfBound(idx)),
        };
        match self.parameters.as_slice().get(idx) {
            Some(Some(bytes)) => read(alloc, pg_type, format, bytes.as_slice()),
            Some(None) => Ok(None),
            None => Err(PgWireError::ParameterIndexOutOfBound(idx)),
        }
    }
}

/// The parameter of these bytes in a format, which is never a null.
fn read<T: FromSql + FromSqlText>(
    alloc: Global,
    pg_type: PgType,
    format: FieldFormat,
    bytes: &[u8],
) -> Result<Option<T>, PgWireError>
    ensures { IsOutcome
        (parsed (read_in T.FromSql.read T.FromSqlText.read pg_type format bytes.now)) result }
{
    let answer = match format {
        FieldFormat::Binary => T::from_sql(pg_type, bytes),
        FieldFormat::Text => {
            let format_options = FormatOptions::new_default(alloc)?;
            T::from_sql_text(alloc, pg_type, bytes, &format_options)
        }
    };
    match answer {
        Ok(value) => Ok(Some(value)),
        Err(CellError::NoMemory) => Err(PgWireError::NoMemory),
        Err(error) => Err(PgWireError::FailedToParseParameter(error)),
    }
}
