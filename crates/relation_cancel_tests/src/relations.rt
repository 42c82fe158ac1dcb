//! A relation whose query never ends.

use pg_messages::{PgList, PgStr};
use relation_server::{Relation, RelationTable, TableError};
use std::alloc::{AllocError, Global};

/// One column.
fn span_column(alloc: Global) -> Result<PgList<PgStr>, AllocError> {
    let mut columns = PgList::new(alloc);
    columns.push(PgStr::copy_of(alloc, "span")?)?;
    Ok(columns)
}

/// The relation `endless` of one column and no row, whose query finds as many polls unready as there
/// can be.
fn endless(alloc: Global) -> Result<Relation, AllocError> {
    Ok(Relation {
        name: PgStr::copy_of(alloc, "endless")?,
        unready: u32::MAX,
        columns: span_column(alloc)?,
        rows: PgList::new(alloc),
    })
}

/// A table of that relation alone.
pub(crate) fn endless_table(alloc: Global) -> Result<RelationTable, TableError> {
    let mut relations = PgList::new(alloc);
    relations.push(endless(alloc)?)?;
    RelationTable::try_new(alloc, relations)
}
