//! How the answer to a file is told.

use pg_interval::Interval;
use pg_messages::{PgList, PgStr};
use relation_files::{FileError, LineReason};
use relation_handlers::RelationTable;
use relation_tables::Relation;
use std::alloc::{AllocError, Global};

/// The relations, one after another, or the refusal.
pub fn told_answer(
    alloc: Global,
    answer: &Result<RelationTable, FileError>,
) -> Result<String, AllocError> {
    match answer {
        Ok(table) => told_relations(alloc, table.relations()),
        Err(FileError::BadLine(number, reason)) => told_line(alloc, *number, reason),
        Err(FileError::TooLong) => String::from_str(alloc, "file too long"),
        Err(FileError::FileFault) => String::from_str(alloc, "file fault"),
        Err(FileError::NoMemory) => String::from_str(alloc, "out of memory"),
    }
}

/// The line's number and its reason.
fn told_line(alloc: Global, number: u64, reason: &LineReason) -> Result<String, AllocError> {
    match reason {
        LineReason::Cell(error) => format!(in alloc; "line {number}: cell {error:?}"),
        _ => {
            let word = reason_word(reason);
            format!(in alloc; "line {number}: {word}")
        }
    }
}

/// The word for a reason.
fn reason_word(reason: &LineReason) -> &'static str {
    match reason {
        LineReason::Text => "text",
        LineReason::Header => "header",
        LineReason::Name => "name",
        LineReason::Column => "column",
        LineReason::Width => "width",
        LineReason::Cell(_) => "cell",
    }
}

/// The relations, of each its name, its unready polls, its columns and its rows; or that there is
/// none.
fn told_relations(alloc: Global, relations: &[Relation]) -> Result<String, AllocError> {
    if relations.is_empty() {
        return String::from_str(alloc, "no relation");
    }
    let mut out = String::new(alloc);
    for relation in relations {
        if !out.is_empty() {
            out.push_str("; ")?;
        }
        push_relation(&mut out, relation)?;
    }
    Ok(out)
}

/// Appends a relation.
fn push_relation(out: &mut String, relation: &Relation) -> Result<(), AllocError> {
    let name = relation.name.as_str();
    let unready = relation.unready;
    write!(out, "{name} {unready}")?;
    for column in relation.columns.as_slice() {
        push_column(out, column)?;
    }
    for row in relation.rows.as_slice() {
        push_row(out, row)?;
    }
    Ok(())
}

/// Appends a column's name.
fn push_column(out: &mut String, column: &PgStr) -> Result<(), AllocError> {
    let name = column.as_str();
    write!(out, " ({name})")
}

/// Appends a row: of each interval its months, days and microseconds, split by commas.
fn push_row(out: &mut String, row: &PgList<Interval>) -> Result<(), AllocError> {
    out.push_str(" <")?;
    let mut is_first = true;
    for interval in row.as_slice() {
        if !is_first {
            out.push_str(", ")?;
        }
        is_first = false;
        let Interval {
            months,
            days,
            microseconds,
        } = *interval;
        write!(out, "{months} {days} {microseconds}")?;
    }
    out.push_str(">")
}
