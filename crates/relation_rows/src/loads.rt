//! What a generated load is, as lines. There is a line for each relation: its unready polls, its
//! columns, how many rows it has and its first cell. Then come the sums over all relations and all
//! cells, and how many bytes the client sends and their sum.

ghost use Rattle.std.specs.Prelude.{◌≤◌};

use pg_interval::Interval;
use pg_messages::{PgList, PgStr};
use relation_demo::{demo_client, demo_table};
use relation_tables::Relation;
use row_files::Fault;
use std::alloc::{AllocError, Global};
use std::fmt::Write;

/// What a row asks for.
#[derive(Clone, Copy)]
struct Load {
    seed: u64,
    count: u32,
    /// Whether the relations are left out.
    is_short: bool,
    ghost bounded: { count ≤ 10000 },
}

/// The answer to `SEED N`, or to `SEED N totals`, which leaves the relations out.
pub fn load_answer<'t>(alloc: Global, text: &'t str) -> Result<String, Fault<'t>> {
    let Some(load) = load_of(text) else {
        return Err(Fault::Line(text));
    };
    let mut out = String::new(alloc);
    put_load(alloc, &mut out, load)?;
    Ok(out)
}

/// The load that a text asks for, if it asks for no more than 10,000 relations.
fn load_of(text: &str) -> Option<Load> {
    let (seed, rest) = text.split_once(' ')?;
    let (count, is_short) = match rest.strip_suffix(" totals") {
        Some(count) => (count, true),
        None => (rest, false),
    };
    let seed = seed.parse::<u64>().ok()?;
    let count = count.parse::<u32>().ok()?;
    if count > 10000 {
        return None;
    }
    Some(Load {
        seed,
        count,
        is_short,
    })
}

/// Puts what there is to tell of a load.
fn put_load(alloc: Global, out: &mut String, load: Load) -> Result<(), AllocError> {
    let (seed, count) = (load.seed, load.count);
    write!(out, "demo {seed} {count}")?;
    put_table(alloc, out, load)?;
    put_client(alloc, out, load)
}

/// Puts what there is to tell of a load's relations.
fn put_table(alloc: Global, out: &mut String, load: Load) -> Result<(), AllocError> {
    let table = demo_table(alloc, load.seed, load.count)?;
    if !load.is_short {
        put_relations(out, table.relations())?;
    }
    put_totals(out, totals_of(table.relations()))
}

/// Puts a line for each relation.
fn put_relations(out: &mut String, relations: &[Relation]) -> Result<(), AllocError> {
    for relation in relations {
        put_relation(out, relation)?;
    }
    Ok(())
}

/// Puts a relation's name, its unready polls, its columns, how many rows it has, and its first cell.
fn put_relation(out: &mut String, relation: &Relation) -> Result<(), AllocError> {
    let name = relation.name.as_str();
    let unready = relation.unready;
    write!(out, "\n{name}: unready {unready}, columns")?;
    put_names(out, relation.columns.as_slice())?;
    let rows = relation.rows.as_slice();
    let count = rows.len();
    write!(out, ", rows {count}, first cell ")?;
    put_cell(out, first_cell(rows))
}

/// Puts the names, with a space before each.
fn put_names(out: &mut String, names: &[PgStr]) -> Result<(), AllocError> {
    for name in names {
        out.push(' ')?;
        out.push_str(name.as_str())?;
    }
    Ok(())
}

/// The first cell of rows.
fn first_cell(rows: &[PgList<Interval>]) -> Option<Interval> {
    match rows.first() {
        Some(row) => row.as_slice().first().copied(),
        None => None,
    }
}

/// Puts the numbers of a cell.
fn put_cell(out: &mut String, cell: Option<Interval>) -> Result<(), AllocError> {
    match cell {
        Some(
            Interval {
                months,
                days,
                microseconds,
            },
        ) => write!(out, "{months} {days} {microseconds}"),
        None => out.push_str("none"),
    }
}

/// What all relations have.
#[derive(Clone, Copy)]
struct Totals {
    unready: u64,
    columns: u64,
    rows: u64,
    months: i64,
    days: i64,
    microseconds: i64,
}

/// The sums over all relations and all cells.
fn totals_of(relations: &[Relation]) -> Totals {
    let mut totals = Totals {
        unready: 0,
        columns: 0,
        rows: 0,
        months: 0,
        days: 0,
        microseconds: 0,
    };
    for relation in relations {
        totals.unready = totals.unready.saturating_add(u64::from(relation.unready));
        totals.columns = totals.columns.saturating_add(relation.columns.len() as u64);
        totals.rows = totals.rows.saturating_add(relation.rows.len() as u64);
        add_cells(&mut totals, relation.rows.as_slice());
    }
    totals
}

/// Puts the sums.
fn put_totals(out: &mut String, totals: Totals) -> Result<(), AllocError> {
    let Totals {
        unready,
        columns,
        rows,
        months,
        days,
        microseconds,
    } = totals;
    write!(
        out,
        "\nunready {unready}, columns {columns}, rows {rows}, cells {months} {days} {microseconds}"
    )
}

/// Adds the cells of rows.
fn add_cells(totals: &mut Totals, rows: &[PgList<Interval>]) {
    for row in rows {
        add_row(totals, row.as_slice());
    }
}

/// Adds the cells of a row.
fn add_row(totals: &mut Totals, row: &[Interval]) {
    for cell in row {
        totals.months = totals.months.saturating_add(i64::from(cell.months));
        totals.days = totals.days.saturating_add(i64::from(cell.days));
        totals.microseconds = totals.microseconds.saturating_add(cell.microseconds);
    }
}

/// Puts how many bytes the client sends, and their sum.
fn put_client(alloc: Global, out: &mut String, load: Load) -> Result<(), AllocError> {
    let client = demo_client(alloc, load.count)?;
    put_bytes(out, client.as_slice())
}

/// Puts how many bytes there are, and their sum.
fn put_bytes(out: &mut String, bytes: &[u8]) -> Result<(), AllocError> {
    let len = bytes.len();
    let sum = sum_of_bytes(bytes);
    write!(out, "\nclient {len} bytes, of sum {sum}")
}

/// The sum of bytes.
fn sum_of_bytes(bytes: &[u8]) -> u64 {
    let mut sum = 0u64;
    for byte in bytes {
        sum = sum.saturating_add(u64::from(*byte));
    }
    sum
}
