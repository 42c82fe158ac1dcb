//! What a statement asks with its parameters.

ghost use Rattle.std.specs.Prelude.{IfErr};
ghost use Rattle.pg_results.specs.Rows.{IsAnswerableItem};
ghost use Rattle.pg_results.specs.Told.{IsOutcome};
ghost use Rattle.shift_orders.specs.Orders.{order_of};

use crate::statement::ShiftStatement;
use crate::values::{interval_asked, name_asked};
use pg_interval::Interval;
use pg_messages::PgBytes;
use pg_portal::{Format, PgWireError};
use shift_table::{Shift, ShiftName};
use std::alloc::Global;

/// What a statement asks with its parameters.
#[derive(Debug, Drop)]
pub enum ShiftOrder {
    /// To book this shift.
    Book(Shift),
    /// To cancel the shift of this name and start.
    Cancel(ShiftName, Interval),
    /// To show all shifts.
    Shifts,
    /// To show the shifts of this name.
    ShiftsOf(ShiftName),
    /// To begin a transaction.
    Begin,
    /// To end it, and keep what it did.
    Commit,
    /// To end it, and undo what it did.
    Rollback,
}

/// What a statement asks with these parameters, in these formats. Its arguments are read in the order
/// in which they stand, and the first error is the answer: 42P02 where there is no parameter, 22004
/// where it is null, 22021 and 22023 for what is no name, 22007 for what is no interval, or `NoMemory`.
pub fn order_of(
    alloc: Global,
    statement: &ShiftStatement,
    parameters: &[Option<PgBytes>],
    formats: &Format,
) -> Result<ShiftOrder, PgWireError>
    ensures outcome { IsOutcome (order_of statement.now parameters.now formats.now) result }
    ensures answerable { IfErr result IsAnswerableItem }
{
    match statement {
        ShiftStatement::Book {
            name,
            start,
            length,
        } => {
            let name = name_asked(alloc, name, parameters)?;
            let start = interval_asked(alloc, start, parameters, formats)?;
            let length = interval_asked(alloc, length, parameters, formats)?;
            Ok(ShiftOrder::Book(Shift {
                name,
                start,
                length,
            }))
        }
        ShiftStatement::Cancel { name, start } => {
            let name = name_asked(alloc, name, parameters)?;
            let start = interval_asked(alloc, start, parameters, formats)?;
            Ok(ShiftOrder::Cancel(name, start))
        }
        ShiftStatement::Shifts => Ok(ShiftOrder::Shifts),
        ShiftStatement::ShiftsOf { name } => {
            Ok(ShiftOrder::ShiftsOf(name_asked(alloc, name, parameters)?))
        }
        ShiftStatement::Begin => Ok(ShiftOrder::Begin),
        ShiftStatement::Commit => Ok(ShiftOrder::Commit),
        ShiftStatement::Rollback => Ok(ShiftOrder::Rollback),
    }
}
