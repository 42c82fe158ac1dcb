//! Visits each interval of a table's relations, which shows that the numbers of intervals lie in
//! their types.

ghost use Rattle.pg_interval.specs.Cell.{IsInterval};
ghost use Rattle.relation_handlers.specs.Tables.{IsRowWithin, AreRowsWithin, HoldIntervals};

use pg_interval::Interval;
use pg_messages::PgList;
use relation_tables::Relation;

/// Visits each interval of relations.
#[tactic(auto, using(crate::proofs::ReadSoFar::more, crate::proofs::ReadSoFar::whole, crate::proofs::ReadSoFar::none))]
pub(crate) fn visit_relations(relations: &[Relation])
    ensures { HoldIntervals relations.now }
{
    for relation in relations {
        visit_rows(relation.rows.as_slice());
    }
}

/// Visits each interval of rows.
#[tactic(auto, using(crate::proofs::ReadSoFar::more, crate::proofs::ReadSoFar::whole, crate::proofs::ReadSoFar::none))]
fn visit_rows(rows: &[PgList<Interval>])
    ensures { AreRowsWithin rows.now }
{
    for row in rows {
        visit_row(row.as_slice());
    }
}

/// Visits each interval of a row.
#[tactic(auto, using(crate::proofs::ReadSoFar::more, crate::proofs::ReadSoFar::whole, crate::proofs::ReadSoFar::none))]
fn visit_row(row: &[Interval])
    ensures { IsRowWithin row.now }
{
    for interval in row {
        visit_interval(*interval);
    }
}

/// Visits an interval.
fn visit_interval(interval: Interval)
    ensures { IsInterval interval }
{
    let _months = interval.months;
    let _days = interval.days;
    let _microseconds = interval.microseconds;
}
