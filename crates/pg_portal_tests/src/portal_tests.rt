//! Pages of portals.

ghost use Rattle.std.specs.List.{AllByRecursion};
ghost use Rattle.pg_results.specs.Rows.{IsSendable};

use crate::fixtures::{Items, cursor, push_row, start};
use pg_messages::{DataRow, PgList, PgStr};
use pg_portal::{FetchResult, ListRows, PgWireError, Portal};
use pg_text::CellError;
use std::alloc::{AllocError, Global};
use std::test::Fail;

/// Whether the next page has rows of these bytes, one each, is suspended as told, and has this tag
/// and number.
fn is_next(
    portal: &mut Portal<PgStr, ListRows>,
    alloc: Global,
    limit: i32,
    bytes: &[u8],
    suspended: bool,
    tag: (&str, u64),
) -> bool {
    is_told(&portal.fetch(alloc, limit), bytes, suspended, tag)
}

fn is_told(
    told: &Result<FetchResult, PgWireError>,
    bytes: &[u8],
    suspended: bool,
    tag: (&str, u64),
) -> bool {
    match told {
        Ok(page) => is_page(page, bytes, suspended, tag),
        Err(_) => false,
    }
}

fn is_page(page: &FetchResult, bytes: &[u8], suspended: bool, tag: (&str, u64)) -> bool {
    are_rows(page.rows.as_slice(), bytes)
        && page.suspended == suspended
        && (page.command_tag.as_str(), page.delivered) == tag
}

/// Whether rows are of these bytes, one each.
fn are_rows(rows: &[DataRow], bytes: &[u8]) -> bool {
    let mut same = rows.len() == bytes.len();
    for (row, byte) in rows.iter().zip(bytes) {
        same = same && row.payload.as_slice() == [*byte].as_slice();
    }
    same
}

/// What refuses the next page, in a word.
fn refusal(portal: &mut Portal<PgStr, ListRows>, alloc: Global) -> &'static str {
    refusal_in(&portal.fetch(alloc, 0))
}

fn refusal_in(told: &Result<FetchResult, PgWireError>) -> &'static str {
    match told {
        Err(PgWireError::FailedToParseParameter(_)) => "an item",
        Err(PgWireError::PortalNotStarted) => "not started",
        _ => "another",
    }
}

/// Appends three rows, an error, and another row.
fn push_all(alloc: Global, items: &mut Items) -> Result<(), AllocError>
    requires { AllByRecursion IsSendable items.old }
    ensures { AllByRecursion IsSendable items.new }
{
    push_row(alloc, items, 10)?;
    push_row(alloc, items, 11)?;
    push_row(alloc, items, 12)?;
    items.push(Err(PgWireError::FailedToParseParameter(CellError::WrongType)))?;
    push_row(alloc, items, 13)
}

/// Starts a portal with all of these.
fn start_all(portal: &mut Portal<PgStr, ListRows>, alloc: Global) -> Result<(), AllocError> {
    let mut items = PgList::new(alloc);
    push_all(alloc, &mut items)?;
    start(alloc, portal, items)
}

/// Whether a portal that wasn't started has no page.
fn is_unstarted(portal: &mut Portal<PgStr, ListRows>, alloc: Global) -> bool {
    portal.name.as_str() == "p"
        && portal.parameter_len() == 0
        && refusal(portal, alloc) == "not started"
}

/// Whether the error drops only the rows of its own page, and the pages after it come up to the
/// portal's end.
fn drops_a_page(portal: &mut Portal<PgStr, ListRows>, alloc: Global) -> Result<bool, AllocError> {
    start_all(portal, alloc)?;
    Ok(
        is_next(portal, alloc, 2, &[10, 11], true, ("FETCH", 2))
            && refusal(portal, alloc) == "an item"
            && is_next(portal, alloc, 1, &[13], true, ("FETCH", 3))
            && is_next(portal, alloc, i32::MIN, &[], false, ("FETCH", 3))
            && is_next(portal, alloc, 2, &[], false, ("SELECT", 3)),
    )
}

/// Whether a count stays at its greatest number.
fn stands_still(portal: &mut Portal<PgStr, ListRows>, alloc: Global) -> Result<bool, AllocError> {
    start_all(portal, alloc)?;
    portal.delivered = u64::MAX - 1;
    Ok(is_next(portal, alloc, 2, &[10, 11], true, ("FETCH", u64::MAX)))
}

/// Whether a portal has the pages of both its starts.
fn has_pages(portal: &mut Portal<PgStr, ListRows>, alloc: Global) -> Result<bool, AllocError> {
    Ok(drops_a_page(portal, alloc)? && stands_still(portal, alloc)?)
}

/// One portal, which is started twice.
#[test]
fn pages_of_a_portal(rt: HostRuntime) -> Result<(), Fail> {
    let mut portal = cursor(rt.alloc())?;
    assert!(rt; is_unstarted(&mut portal, rt.alloc()));
    assert!(rt; has_pages(&mut portal, rt.alloc()) == Ok(true));
    Ok(())
}
