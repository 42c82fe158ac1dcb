//! The relations that tests and measurements use.

ghost use Rattle.std.specs.Prelude.{◌≡◌, map, IfOk, IfErr};
ghost use Rattle.built_in_relations.specs.BuiltIn as rows;

use pg_interval::Interval;
use pg_messages::{PgList, PgStr};
use relation_handlers::{RelationTable, TableError};
use relation_tables::Relation;
use std::alloc::{AllocError, Global};

/// The table of these relations: `shifts` with three rows, `slow` with one row, whose query two
/// polls find unready, `wide` with a row of three columns, and `none` without rows. The only error
/// is `NoMemory`.
pub fn built_in_table(alloc: Global) -> Result<RelationTable, TableError>
    ensures ok { IfOk result (λ table. table ≡ rows.built_in) }
    ensures err { IfErr result (λ error. error ≡ TableError.NoMemory) }
{
    RelationTable::try_new(alloc, relations(alloc)?)
}

/// The relations of the table.
fn relations(alloc: Global) -> Result<PgList<Relation>, AllocError>
    ensures { IfOk result (λ relations. relations ≡ rows.built_in) }
{
    let mut relations = PgList::new(alloc);
    relations.push(shifts(alloc)?)?;
    relations.push(slow(alloc)?)?;
    relations.push(wide(alloc)?)?;
    relations.push(none(alloc)?)?;
    Ok(relations)
}

/// `shifts`: three rows of one column.
fn shifts(alloc: Global) -> Result<Relation, AllocError>
    ensures { IfOk result (λ relation. relation ≡ rows.shifts) }
{
    Ok(Relation {
        name: PgStr::copy_of(alloc, "shifts")?,
        unready: 0,
        columns: names(alloc, &["span"])?,
        rows: rows_of(
            alloc,
            &[
                &[Interval::new(13, 1, 4_215_000_000)],
                &[Interval::new(0, 0, -500_000)],
                &[Interval::new(-1, 2, 3_000_000)],
            ],
        )?,
    })
}

/// `slow`: a row of one column, and two polls that find a query unready.
fn slow(alloc: Global) -> Result<Relation, AllocError>
    ensures { IfOk result (λ relation. relation ≡ rows.slow) }
{
    Ok(Relation {
        name: PgStr::copy_of(alloc, "slow")?,
        unready: 2,
        columns: names(alloc, &["span"])?,
        rows: rows_of(alloc, &[&[Interval::new(0, 1, 0)]])?,
    })
}

/// `wide`: a row of three columns.
fn wide(alloc: Global) -> Result<Relation, AllocError>
    ensures { IfOk result (λ relation. relation ≡ rows.wide) }
{
    Ok(Relation {
        name: PgStr::copy_of(alloc, "wide")?,
        unready: 0,
        columns: names(alloc, &["a", "b", "c"])?,
        rows: rows_of(
            alloc,
            &[&[
                Interval::new(0, 1, 0),
                Interval::new(0, 2, 0),
                Interval::new(0, 3, 0),
            ]],
        )?,
    })
}

/// `none`: a column, and no rows.
fn none(alloc: Global) -> Result<Relation, AllocError>
    ensures { IfOk result (λ relation. relation ≡ rows.none) }
{
    Ok(Relation {
        name: PgStr::copy_of(alloc, "none")?,
        unready: 0,
        columns: names(alloc, &["span"])?,
        rows: PgList::new(alloc),
    })
}

/// These rows, copied.
fn rows_of(alloc: Global, slices: &[&[Interval]]) -> Result<PgList<PgList<Interval>>, AllocError>
    ensures { IfOk result (λ rows. rows ≡ map (λ slice. slice.now) slices.now) }
{
    let mut rows = PgList::new(alloc);
    for slice in slices {
        rows.push(row(alloc, slice)?)?;
    }
    Ok(rows)
}

/// A row of these intervals.
fn row(alloc: Global, intervals: &[Interval]) -> Result<PgList<Interval>, AllocError>
    ensures { IfOk result (λ row. row ≡ intervals.now) }
{
    Ok(PgList::from_vec(Vec::from_slice(alloc, intervals)?))
}

/// These names, copied.
fn names(alloc: Global, texts: &[&str]) -> Result<PgList<PgStr>, AllocError>
    ensures { IfOk result (λ names. names ≡ map (λ text. text.now) texts.now) }
{
    let mut names = PgList::new(alloc);
    for text in texts {
        names.push(PgStr::copy_of(alloc, text)?)?;
    }
    Ok(names)
}
