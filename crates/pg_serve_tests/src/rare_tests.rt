//! Calls that no conversation over relations makes: the texts of some errors, a cell in a type and a
//! format of its own, and rows and data of which there are none.

use pg_handlers::NoRows;
use pg_interval::Interval;
use pg_messages::{DataRow, PgList, PgStr};
use pg_portal::{CopySource, DataRowEncoder, PgWireError, RowSource};
use pg_types::{CellError, FieldFormat, FormatOptions, PgType};
use std::alloc::{AllocError, Global};
use std::sync::Arc;
use std::test::Fail;

/// Whether an error is told by this code and this message.
fn is_told(alloc: Global, error: PgWireError, code: &str, message: &str) -> bool {
    match error.into_info(alloc) {
        Ok(info) => info.code.as_str() == code && info.message.as_str() == message,
        Err(_) => false,
    }
}

/// Whether errors of a parameter are told.
fn are_parameters_told(alloc: Global) -> Result<bool, AllocError> {
    let int4 = PgWireError::InvalidRustTypeForParameter(PgStr::copy_of(alloc, "int4")?);
    let text = "type int4 is not accepted for the parameter";
    let third = PgWireError::ParameterIndexOutOfBound(3);
    let short = PgWireError::FailedToParseParameter(CellError::ShortCell);
    Ok(
        is_told(alloc, int4, "XX000", text)
            && is_told(alloc, third, "XX000", "parameter index 3 is out of bounds")
            && is_told(alloc, short, "XX000", "failed to parse parameter"),
    )
}

#[test]
fn errors_have_texts(rt: HostRuntime) {
    let alloc = rt.alloc();
    assert!(rt; are_parameters_told(alloc) == Ok(true));
    assert!(rt;
        is_told(
            alloc,
            PgWireError::PortalNotStarted,
            "XX000",
            "portal is not started"
        )
    );
    assert!(rt;
        is_told(
            alloc,
            PgWireError::NotReadyForQuery,
            "08P01",
            "not ready for query"
        )
    );
}

/// A row of one cell, a day as text, of an encoder without columns.
fn day_row(alloc: Global) -> Result<DataRow, AllocError> {
    let mut rows = DataRowEncoder::new(alloc, Arc::new(alloc, PgList::new(alloc))?)?;
    let options = FormatOptions::new_default(alloc)?;
    let day = Interval::new(0, 1, 0);
    let (kind, format) = (PgType::Interval, FieldFormat::Text);
    if rows.cells() < 32767 {
        rows.encode_field_with_type_and_format(&day, kind, format, &options)
            .map_err(|_| AllocError)?;
    }
    rows.take_row()
}

#[test]
fn a_cell_of_its_own(rt: HostRuntime) -> Result<(), Fail> {
    let row = day_row(rt.alloc())?;
    assert!(rt; row.field_count == 1 && row.payload.as_slice() == b"\0\0\0\x051 day".as_slice());
    Ok(())
}

#[test]
fn no_rows_are_none(rt: HostRuntime) {
    let mut rows = NoRows;
    assert!(rt; matches!(<NoRows as RowSource>::next(&mut rows), Ok(None)));
    let mut copied = NoRows;
    assert!(rt; matches!(<NoRows as CopySource>::next(&mut copied), Ok(None)));
}
