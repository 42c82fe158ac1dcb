//! Relations of intervals: their names, what queries of them mean, how their handlers answer, and
//! the core conversation table.
#![tactic(auto)]

mod laws;
mod names;

pub use laws::whole_is_core;
pub use names::{MOST_COLUMNS, is_column_name, is_name};
use pg_interval::Interval;
use pg_messages::{PgList, PgStr};

/// Rows of intervals under a name.
#[derive(Drop)]
pub struct Relation {
    /// What a query calls it.
    pub name: PgStr,
    /// How many polls find a query of it unready.
    pub unready: u32,
    /// The names of the columns.
    pub columns: PgList<PgStr>,
    /// The rows, each with an interval for each column.
    pub rows: PgList<PgList<Interval>>,
}

/// What a query means. A relation is named by its place among the relations.
#[derive(Clone, Copy, Debug, PartialEq, Eq)]
pub enum RelationStatement {
    /// BEGIN.
    Begin,
    /// COMMIT.
    Commit,
    /// All rows of the relation at a place.
    Relation(u32),
}
