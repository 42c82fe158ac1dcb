use super::*;
use pg_interval::Interval;
use pg_messages::{DataRow, PgList};
use pg_portal::{Format, OnDemand, RowMaker, deliver_page};
use shift_table::{Shift, ShiftName};
use std::alloc::Global;
use std::sync::Arc;
use std::test::Fail;

const HOUR: i64 = 3_600_000_000;

/// A shift of ann from eight to sixteen hours, and one of bob that lasts a day.
fn rows(alloc: Global, formats: Format) -> Result<ShiftRows, Fail> {
    let mut shifts = Vec::new(alloc);
    shifts.push(Shift {
        name: ShiftName::new(alloc, "ann")?,
        start: Interval::new(0, 0, 8 * HOUR),
        length: Interval::new(0, 0, 8 * HOUR),
    })?;
    shifts.push(Shift {
        name: ShiftName::new(alloc, "bob")?,
        start: Interval::new(1, 2, -3),
        length: Interval::new(0, 1, 0),
    })?;
    Ok(ShiftRows::new(alloc, Arc::new(alloc, shifts)?, formats))
}

/// A page of all rows in these formats.
fn page(alloc: Global, formats: Format) -> Result<PgList<DataRow>, Fail> {
    let mut source = OnDemand::new(rows(alloc, formats)?);
    let mut page = PgList::new(alloc);
    deliver_page(alloc, &mut source, &mut page, 0, 0)
        .ok()
        .ok_or("no page")?;
    Ok(page)
}

/// The cells of the row at an index, or none.
fn cells(page: &PgList<DataRow>, index: usize) -> &[u8] {
    match page.as_slice().get(index) {
        Some(row) => row.payload.as_slice(),
        None => &[],
    }
}

const ANN_IN_TEXT: &[u8] = b"\0\0\0\x03ann\0\0\0\x0808:00:00\0\0\0\x0808:00:00";

const BOB_IN_TEXT: &[u8] = b"\0\0\0\x03bob\0\0\0\x1d1 mon 2 days -00:00:00.000003\0\0\0\x051 day";

const ANN_IN_BINARY: &[u8] =
    b"\0\0\0\x03ann\0\0\0\x10\0\0\0\x06\xb4\x9d\x20\0\0\0\0\0\0\0\0\0\0\0\0\x10\0\0\0\x06\xb4\x9d\x20\0\0\0\0\0\0\0\0\0";

const BOB_IN_BINARY: &[u8] =
    b"\0\0\0\x03bob\0\0\0\x10\xff\xff\xff\xff\xff\xff\xff\xfd\0\0\0\x02\0\0\0\x01\0\0\0\x10\0\0\0\0\0\0\0\0\0\0\0\x01\0\0\0\0";

#[test]
fn a_page_in_text(rt: HostRuntime) -> Result<(), Fail> {
    let page = page(rt.alloc(), Format::UnifiedText)?;
    assert_eq!(rt; page.len(), 2);
    assert_eq!(rt; cells(&page, 0), ANN_IN_TEXT);
    assert_eq!(rt; cells(&page, 1), BOB_IN_TEXT);
    assert_eq!(rt; columns(rt.alloc(), &Format::UnifiedText)?.len(), 3);
    Ok(())
}

#[test]
fn a_page_in_binary(rt: HostRuntime) -> Result<(), Fail> {
    let page = page(rt.alloc(), Format::UnifiedBinary)?;
    assert_eq!(rt; page.len(), 2);
    assert_eq!(rt; cells(&page, 0), ANN_IN_BINARY);
    assert_eq!(rt; cells(&page, 1), BOB_IN_BINARY);
    Ok(())
}

#[test]
fn a_row_that_is_made_alone(rt: HostRuntime) -> Result<(), Fail> {
    let rows = rows(rt.alloc(), Format::UnifiedText)?;
    assert_eq!(rt; rows.rows(), 2);
    let row = rows.make(1)?.ok().ok_or("no row")?;
    assert_eq!(rt; row.payload.as_slice(), BOB_IN_TEXT);
    assert_eq!(rt; row.field_count, 3);
    Ok(())
}
