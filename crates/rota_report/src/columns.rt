//! The columns that words name.

ghost use Rattle.std.specs.Prelude.{◌≡◌, ◌<◌, ◌^◌, Some, IfOk, IfErr, true, length};
ghost use Rattle.relation_tables.specs.Relations.{are_even};
ghost use Rattle.rota_report.specs.Columns.{column_place, column_at, column_of, IsNoColumn};

use crate::failure::Failure;
use pg_interval::Interval;
use pg_messages::{PgList, PgStr};
use relation_handlers::RelationTable;
use relation_tables::Relation;
use std::alloc::{AllocError, Global};

/// The intervals of a column of a relation: those under the first column of that name.
pub(crate) fn named_column(
    alloc: Global,
    relations: &RelationTable,
    relation: &str,
    column: &str,
) -> Result<PgList<Interval>, Failure>
    ensures found { IfOk result (λ steps. column_of relations.now relation.now column.now
        ≡ Some steps) }
    ensures refused { IfErr result (λ failure. IsNoColumn failure
        (column_of relations.now relation.now column.now)) }
{
    let Some(place) = relations.find(relation) else {
        return Err(Failure::NoColumn);
    };
    let relation = &relations.relations()[place as usize];
    let Some(place) = place_of_column(relation.columns.as_slice(), column) else {
        return Err(Failure::NoColumn);
    };
    Ok(intervals_at(alloc, relation, place)?)
}

/// The place of the first column of a name.
fn place_of_column(columns: &[PgStr], name: &str) -> Option<usize>
    ensures { result ≡ column_place columns.now name.now }
{
    columns.iter().position(|column| column.as_str() == name)
}

/// The intervals of the column at a place, row by row.
fn intervals_at(
    alloc: Global,
    relation: &Relation,
    place: usize,
) -> Result<PgList<Interval>, AllocError>
    requires even { are_even (length relation.now.columns) relation.now.rows ≡ true }
    requires within { place < length relation.now.columns }
    ensures { IfOk result (λ steps. steps ≡ column_at relation.now place) }
{
    let mut steps = PgList::new(alloc);
    for row in relation.rows.as_slice() {
        steps.push(row.as_slice()[place])?;
    }
    Ok(steps)
}
