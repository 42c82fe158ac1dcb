//! Portals over rows in memory.

ghost use Rattle.std.specs.List.{AllByRecursion};
ghost use Rattle.pg_results.specs.Rows.{IsSendable};

use pg_messages::{DataRow, PgBytes, PgList, PgStr};
use pg_portal::{ListRows, PgWireError, Portal, QueryResponse, StoredStatement};
use std::alloc::{AllocError, Global};
use std::sync::Arc;

/// Rows or errors.
pub(crate) type Items = PgList<Result<DataRow, PgWireError>>;

/// The statement `s1` of a query, without parameters.
pub(crate) fn statement(alloc: Global) -> Result<Arc<StoredStatement<PgStr>>, AllocError> {
    let id = PgStr::copy_of(alloc, "s1")?;
    let query = PgStr::copy_of(alloc, "shifts")?;
    Ok(Arc::new(alloc, StoredStatement::new(id, query, PgList::new(alloc)))?)
}

/// Appends a row of one byte.
pub(crate) fn push_row(alloc: Global, items: &mut Items, byte: u8) -> Result<(), AllocError>
    requires { AllByRecursion IsSendable items.old }
    ensures { AllByRecursion IsSendable items.new }
{
    let payload = PgBytes::copy_of(alloc, &[byte])?;
    items.push(Ok(DataRow {
        payload,
        field_count: 1,
    }))
}

/// The cursor `p`, which wasn't started.
pub(crate) fn cursor(alloc: Global) -> Result<Portal<PgStr, ListRows>, AllocError> {
    let statement = statement(alloc)?;
    Ok(Portal::new_cursor(alloc, PgStr::copy_of(alloc, "p")?, statement))
}

/// These items, without columns, under a tag of their own.
fn response(alloc: Global, items: Items) -> Result<QueryResponse<ListRows>, AllocError>
    requires { AllByRecursion IsSendable items }
{
    let rows = ListRows::new(items);
    let columns = Arc::new(alloc, PgList::new(alloc))?;
    QueryResponse::new(alloc, columns, rows)
}

/// Starts a portal with these items, under the tag `FETCH`.
pub(crate) fn start(
    alloc: Global,
    portal: &mut Portal<PgStr, ListRows>,
    items: Items,
) -> Result<(), AllocError>
    requires { AllByRecursion IsSendable items }
{
    let mut response = response(alloc, items)?;
    response.set_command_tag(alloc, "FETCH")?;
    portal.start(response);
    Ok(())
}
