//! Rows that are sent page by page.

ghost use Rattle.std.specs.Prelude.{◌≡◌, [], codes, IfOk};
ghost use Rattle.std.specs.Arc.{arc_value};
ghost use Rattle.std.specs.List.{AllByRecursion};
ghost use Rattle.pg_results.specs.Rows.{IsSendable};
ghost use Rattle.pg_replies.specs.Replies.{IsTag};

use pg_messages::{DataRow, PgBytes, PgList};
use pg_portal::{ListRows, PgWireError, QueryResponse};
use pg_session::{Outbox, send_partial_query_response};
use std::alloc::{AllocError, Global};
use std::sync::Arc;

/// Appends a row without a cell.
fn push_row(
    alloc: Global,
    items: &mut PgList<Result<DataRow, PgWireError>>,
) -> Result<(), AllocError>
    requires { AllByRecursion IsSendable items.old }
    ensures { AllByRecursion IsSendable items.new }
{
    let payload = PgBytes::copy_of(alloc, &[])?;
    items.push(Ok(DataRow {
        payload,
        field_count: 0,
    }))
}

/// Two rows without a column.
fn rows(alloc: Global) -> Result<QueryResponse<ListRows>, AllocError>
    ensures tag { IfOk result (λ response. response.command_tag ≡ codes "SELECT") }
    ensures columns { IfOk result (λ response. arc_value response.row_schema ≡ []) }
{
    let mut items = PgList::new(alloc);
    push_row(alloc, &mut items)?;
    push_row(alloc, &mut items)?;
    let columns = Arc::new(alloc, PgList::new(alloc))?;
    QueryResponse::new(alloc, columns, ListRows::new(items))
}

/// The rows of a cursor, under the tag FETCH.
fn fetched(alloc: Global) -> Result<QueryResponse<ListRows>, AllocError>
    ensures { IfOk result (λ response. IsTag response.command_tag) }
{
    let mut response = rows(alloc)?;
    response.set_command_tag(alloc, "FETCH")?;
    Ok(response)
}

/// Whether a page of one row is sent, and then all rows that are left.
fn are_pages_sent(
    alloc: Global,
    outbox: &mut Outbox,
    response: &mut QueryResponse<ListRows>,
) -> bool
    requires { IsTag response.old.command_tag }
{
    let page = send_partial_query_response(alloc, outbox, response, 1).ok();
    let rest = send_partial_query_response(alloc, outbox, response, 0).ok();
    page == Some(true) && rest == Some(false)
}

/// Whether the rows of a cursor are sent in these two pages, with its own tag after them.
fn are_sent(alloc: Global) -> Result<bool, AllocError> {
    let mut response = fetched(alloc)?;
    let mut outbox = Outbox::new(alloc)?;
    let sent = are_pages_sent(alloc, &mut outbox, &mut response);
    Ok(sent && outbox.front() == Some(PAGES))
}

/// A row and PortalSuspended; a row and CommandComplete.
const PAGES: &[u8] = b"D\0\0\0\x06\0\0s\0\0\0\x04D\0\0\0\x06\0\0C\0\0\0\x0cFETCH 1\0";

#[test]
fn a_cursor_tells_its_own_tag(rt: HostRuntime) {
    assert!(rt; are_sent(rt.alloc()) == Ok(true));
}
