//! The relations of the load, and their table.

ghost use Rattle.std.specs.Prelude.{◌≡◌, ◌++◌, ◌*◌, ◌%◌, ◌≤◌, ◌-ℤ◌, pos, decimal, IfOk, OnOk};
ghost use Rattle.std.specs.List.{AllByRecursion};
ghost use Rattle.relation_handlers.specs.Tables.{IsValid, HoldIntervals};
ghost use Rattle.relation_demo.specs.Draws.{after, draw};
ghost use Rattle.relation_demo.specs.Load as load;

use crate::draws::Draws;
use pg_interval::Interval;
use pg_messages::{PgList, PgStr};
use relation_handlers::{RelationTable, TableError};
use relation_tables::Relation;
use std::alloc::{AllocError, Global};

/// The table of `count` relations, drawn from a seed. Each keeps the rules of a table, so want of
/// memory is the only error.
#[tactic(auto, using(crate::proofs::LoadLemmas::is_valid, crate::proofs::LoadLemmas::hold_intervals, crate::proofs::LoadLemmas::few_polls))]
pub fn demo_table(alloc: Global, seed: u64, count: u32) -> Result<RelationTable, AllocError>
    requires { count ≤ 10000 }
    ensures table { IfOk result (λ table. table ≡ load.demo_relations seed count) }
    ensures valid { IsValid (load.demo_relations seed count) }
    ensures within { HoldIntervals (load.demo_relations seed count) }
    ensures polls { AllByRecursion (λ r. r.unready ≤ 2) (load.demo_relations seed count) }
{
    let relations = relations(alloc, seed, count)?;
    match RelationTable::try_new(alloc, relations) {
        Ok(table) => Ok(table),
        Err(error) => Err(memory_error(error)),
    }
}

/// The error of a table that breaks no rule.
fn memory_error(error: TableError) -> AllocError
    requires { error ≡ TableError.NoMemory }
{
    AllocError
}

/// `count` relations, drawn from a seed.
fn relations(alloc: Global, seed: u64, count: u32) -> Result<PgList<Relation>, AllocError>
    requires { count ≤ 10000 }
    ensures { IfOk result (λ relations. relations ≡ load.demo_relations seed count) }
{
    let mut draws = Draws::new(seed);
    let mut relations = PgList::new(alloc);
    for number in 0..count {
        relations.push(relation(alloc, &mut draws, number)?)?;
    }
    Ok(relations)
}

/// The next relation, of this number.
fn relation(alloc: Global, draws: &mut Draws, number: u32) -> Result<Relation, AllocError>
    requires { number ≤ 10000 }
    ensures relation { IfOk result (λ relation. relation ≡ load.relation draws.old number) }
    ensures after { OnOk result (draws.new ≡ after draws.old (load.draws draws.old)) }
{
    let unready = draws.below(3);
    let width = 1 + draws.below(4);
    let height = draws.below(20);
    Ok(Relation {
        name: numbered(alloc, "r", number)?,
        unready,
        columns: columns(alloc, width)?,
        rows: rows(alloc, draws, width, height)?,
    })
}

/// The names of `width` columns.
fn columns(alloc: Global, width: u32) -> Result<PgList<PgStr>, AllocError>
    ensures { IfOk result (λ columns. columns ≡ load.each_below width load.column_name) }
{
    let mut columns = PgList::new(alloc);
    for column in 0..width {
        columns.push(numbered(alloc, "c", column)?)?;
    }
    Ok(columns)
}

/// A letter, and a number in decimal.
fn numbered(alloc: Global, letter: &str, number: u32) -> Result<PgStr, AllocError>
    ensures { IfOk result (λ name. name ≡ letter.now ++ decimal number) }
{
    PgStr::copy_of(alloc, format!(in alloc; "{letter}{number}")?.as_str())
}

/// The next rows.
fn rows(
    alloc: Global,
    draws: &mut Draws,
    width: u32,
    height: u32,
) -> Result<PgList<PgList<Interval>>, AllocError>
    ensures rows { IfOk result (λ rows. rows ≡ load.rows draws.old width height) }
    ensures after { OnOk result (draws.new ≡ after draws.old (3 * width * height)) }
{
    let mut rows = PgList::new(alloc);
    'rows: for _ in 0..height {
        rows.push(row(alloc, draws, width)?)?;
    }
    Ok(rows)
}

/// The next row.
fn row(alloc: Global, draws: &mut Draws, width: u32) -> Result<PgList<Interval>, AllocError>
    ensures row { IfOk result (λ row. row ≡ load.row draws.old width) }
    ensures after { OnOk result (draws.new ≡ after draws.old (3 * width)) }
{
    let mut row = PgList::new(alloc);
    'cells: for _ in 0..width {
        row.push(cell(draws))?;
    }
    Ok(row)
}

/// The next cell.
fn cell(draws: &mut Draws) -> Interval
    ensures cell { result ≡ load.cell draws.old }
    ensures after { draws.new ≡ after draws.old 3 }
{
    let months = span(draws);
    let days = span(draws);
    let microseconds = i64::from(draws.draw()) - 1_073_741_824;
    Interval::new(months, days, microseconds)
}

/// The next number from -1000 to 1000.
fn span(draws: &mut Draws) -> i32
    ensures span { result ≡ pos (draw draws.old 0 % 2001) -ℤ pos 1000 }
    ensures after { draws.new ≡ after draws.old 1 }
{
    draws.below(2001) as i32 - 1000
}
