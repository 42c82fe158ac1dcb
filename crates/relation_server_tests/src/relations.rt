//! Tables of relations that are refused.

use pg_messages::{PgList, PgStr};
use relation_server::{Relation, RelationTable, TableError};
use std::alloc::{AllocError, Global};

/// One column.
fn column_of(alloc: Global, name: &str) -> Result<PgList<PgStr>, AllocError> {
    let mut columns = PgList::new(alloc);
    columns.push(PgStr::copy_of(alloc, name)?)?;
    Ok(columns)
}

/// A relation of a name and one column of a name. It has no row, or one that is too short.
fn relation_of(
    alloc: Global,
    name: &str,
    column: &str,
    is_ragged: bool,
) -> Result<Relation, AllocError> {
    let mut relation = Relation {
        name: PgStr::copy_of(alloc, name)?,
        unready: 0,
        columns: column_of(alloc, column)?,
        rows: PgList::new(alloc),
    };
    if is_ragged {
        relation.rows.push(PgList::new(alloc))?;
    }
    Ok(relation)
}

/// A table of one such relation.
fn table_of(
    alloc: Global,
    name: &str,
    column: &str,
    is_ragged: bool,
) -> Result<RelationTable, TableError> {
    let mut relations = PgList::new(alloc);
    relations.push(relation_of(alloc, name, column, is_ragged)?)?;
    RelationTable::try_new(alloc, relations)
}

/// A table of two relations of one name.
fn table_of_two(alloc: Global) -> Result<RelationTable, TableError> {
    let mut relations = PgList::new(alloc);
    relations.push(relation_of(alloc, "a", "span", false)?)?;
    relations.push(relation_of(alloc, "a", "span", false)?)?;
    RelationTable::try_new(alloc, relations)
}

/// A name of 64 bytes.
const LONG: &str = "aaaaaaaaaaaaaaaabbbbbbbbbbbbbbbbccccccccccccccccdddddddddddddddd";

/// Each rule of a relation refuses what breaks it.
#[test]
fn tables_are_judged(rt: HostRuntime) {
    let alloc = rt.alloc();
    let told = [
        table_of_two(alloc).err(),
        table_of(alloc, "a", "span", true).err(),
        table_of(alloc, "a", LONG, true).err(),
        table_of(alloc, LONG, LONG, true).err(),
        table_of(alloc, "a", "", false).err(),
    ];
    assert!(rt;
        told == [
            Some(TableError::BadName(1)),
            Some(TableError::RaggedRow(0)),
            Some(TableError::BadColumn(0)),
            Some(TableError::BadName(0)),
            None,
        ]
    );
}
