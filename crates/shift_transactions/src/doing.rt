//! What orders do.

ghost use Rattle.std.specs.Prelude.{◌≡◌, None, IsTrue, IsOk, IfOk, OnOk, OnErr};
ghost use Rattle.shift_table.specs.Shifts.{found, shifts_of};
ghost use Rattle.shift_orders.specs.declared.order.ShiftOrder.TheVariants as ask;
ghost use Rattle.shift_transactions.specs.Steps.{tried};
ghost use Rattle.shift_transactions.specs.Doing.{seen, stepped, stepped_alone, canceling, opened, committed, done, done_after_error};
ghost use Rattle.shift_transactions.specs.Trying.{changed_by};
ghost use Rattle.shift_transactions.specs.declared.outcome.Outcome.TheVariants as outcome;

use crate::outcome::{Outcome, Refusal};
use crate::step::{Step, Steps, told_of, try_step};
use crate::transaction::Transaction;
use pg_interval::Interval;
use pg_messages::PgList;
use shift_orders::ShiftOrder;
use shift_table::{ShiftName, ShiftTable};
use std::alloc::{AllocError, Global};

/// Does what an order asks, on the table of all clients, for a client with this transaction open, or
/// none, which has failed or hasn't. The answer has the steps that changed the table, if it was changed,
/// and what the client is told. The only error is running out of memory, and then all is as it was.
/// ROLLBACK needs no memory, nor does any order in a transaction that has failed.
pub fn do_order(
    alloc: Global,
    table: &mut ShiftTable,
    transaction: &mut Option<Transaction>,
    has_failed: bool,
    order: ShiftOrder,
) -> Result<(Option<Steps>, Outcome), AllocError>
    ensures done { IfOk result (λ r.
        record { change = r.0; transaction = transaction.new; outcome = r.1 }
        ≡ done has_failed table.old transaction.old order) }
    ensures changed { IfOk result (λ r. table.new ≡ changed_by table.old r.0) }
    ensures table { OnErr result (table.new ≡ table.old) }
    ensures transaction { OnErr result (transaction.new ≡ transaction.old) }
    ensures failed { IsTrue has_failed → IsOk result }
    ensures rollback { order ≡ ask.Rollback → IsOk result }
{
    if has_failed {
        return Ok((None, do_after_error(transaction, &order)));
    }
    match order {
        ShiftOrder::Book(shift) => do_step(alloc, table, transaction, Step::Book(shift)),
        ShiftOrder::Cancel(name, start) => cancel(alloc, table, transaction, name, start),
        ShiftOrder::Shifts => Ok((None, show(alloc, seen(table, transaction))?)),
        ShiftOrder::ShiftsOf(name) => Ok((None, show_of(alloc, seen(table, transaction), name)?)),
        ShiftOrder::Begin => {
            begin(alloc, table, transaction)?;
            Ok((None, Outcome::Began))
        }
        ShiftOrder::Commit => commit(table, transaction),
        ShiftOrder::Rollback => {
            *transaction = None;
            Ok((None, Outcome::RolledBack))
        }
    }
}

/// Does what an order asks in a transaction that has failed.
fn do_after_error(transaction: &mut Option<Transaction>, order: &ShiftOrder) -> Outcome
    ensures { record { change = None; transaction = transaction.new; outcome = result }
        ≡ done_after_error transaction.old order.now }
{
    match order {
        ShiftOrder::Commit | ShiftOrder::Rollback => {
            *transaction = None;
            Outcome::RolledBack
        }
        _ => Outcome::Refused(Refusal::Failed),
    }
}

/// The table that a client sees.
fn seen<'a>(table: &'a ShiftTable, transaction: &'a Option<Transaction>) -> &'a ShiftTable
    ensures { result.now ≡ seen table.now transaction.now }
{
    match transaction {
        Some(current) => current.table(),
        None => table,
    }
}

/// Shows all shifts.
fn show(alloc: Global, table: &ShiftTable) -> Result<Outcome, AllocError>
    ensures { IfOk result (λ shown. shown ≡ outcome.Shown table.now) }
{
    Ok(Outcome::Shown(PgList::from_vec(table.shifts(alloc)?)))
}

/// Shows the shifts of a name.
fn show_of(alloc: Global, table: &ShiftTable, name: ShiftName) -> Result<Outcome, AllocError>
    ensures { IfOk result (λ shown. shown ≡ outcome.Shown (shifts_of table.now name)) }
{
    Ok(Outcome::Shown(PgList::from_vec(table.shifts_of(alloc, name)?)))
}

/// Cancels the shift of a name that starts at a moment, if the client sees one. After an error all is as
/// it was.
fn cancel(
    alloc: Global,
    table: &mut ShiftTable,
    transaction: &mut Option<Transaction>,
    name: ShiftName,
    start: Interval,
) -> Result<(Option<Steps>, Outcome), AllocError>
    ensures done { IfOk result (λ r.
        record { change = r.0; transaction = transaction.new; outcome = r.1 }
        ≡ canceling table.old transaction.old (found (seen table.old transaction.old) name start)) }
    ensures changed { IfOk result (λ r. table.new ≡ changed_by table.old r.0) }
    ensures table { OnErr result (table.new ≡ table.old) }
    ensures transaction { OnErr result (transaction.new ≡ transaction.old) }
{
    match seen(table, transaction).find(name, start) {
        Some(shift) => do_step(alloc, table, transaction, Step::Cancel(shift)),
        None => Ok((None, Outcome::Refused(Refusal::UnknownShift))),
    }
}

/// Does a step, on its own or within the transaction that is open. After an error all is as it was.
fn do_step(
    alloc: Global,
    table: &mut ShiftTable,
    transaction: &mut Option<Transaction>,
    step: Step,
) -> Result<(Option<Steps>, Outcome), AllocError>
    ensures done { IfOk result (λ r.
        record { change = r.0; transaction = transaction.new; outcome = r.1 }
        ≡ stepped table.old transaction.old step) }
    ensures changed { IfOk result (λ r. table.new ≡ changed_by table.old r.0) }
    ensures table { OnErr result (table.new ≡ table.old) }
    ensures transaction { OnErr result (transaction.new ≡ transaction.old) }
{
    match transaction {
        Some(current) => Ok((None, current.step(step)?)),
        None => do_alone(alloc, table, step),
    }
}

/// Does a step on its own, on the table of all clients. After an error it is as it was.
fn do_alone(
    alloc: Global,
    table: &mut ShiftTable,
    step: Step,
) -> Result<(Option<Steps>, Outcome), AllocError>
    ensures done { IfOk result (λ r.
        record { change = r.0; transaction = None; outcome = r.1 }
        ≡ stepped_alone step (tried table.old step)) }
    ensures changed { IfOk result (λ r. table.new ≡ changed_by table.old r.0) }
    ensures err { OnErr result (table.new ≡ table.old) }
{
    let told = told_of(&step);
    let change = Steps::of_one(alloc, step.clone()?);
    match try_step(table, step)? {
        None => Ok((Some(change), told)),
        Some(refusal) => Ok((None, Outcome::Refused(refusal))),
    }
}

/// Begins a transaction where none is open. After an error none is.
fn begin(
    alloc: Global,
    table: &ShiftTable,
    transaction: &mut Option<Transaction>,
) -> Result<(), AllocError>
    ensures ok { OnOk result (transaction.new ≡ Some (opened table.now transaction.old)) }
    ensures err { OnErr result (transaction.new ≡ transaction.old) }
{
    if transaction.is_none() {
        *transaction = Some(Transaction::begin(alloc, table)?);
    }
    Ok(())
}

/// Ends the transaction that is open, and makes its changes, where they can be made. After an error all
/// is as it was.
fn commit(
    table: &mut ShiftTable,
    transaction: &mut Option<Transaction>,
) -> Result<(Option<Steps>, Outcome), AllocError>
    ensures done { IfOk result (λ r.
        record { change = r.0; transaction = transaction.new; outcome = r.1 }
        ≡ committed table.old transaction.old) }
    ensures changed { IfOk result (λ r. table.new ≡ changed_by table.old r.0) }
    ensures table { OnErr result (table.new ≡ table.old) }
    ensures transaction { OnErr result (transaction.new ≡ transaction.old) }
{
    let Some(current) = transaction else {
        return Ok((None, Outcome::Committed));
    };
    if current.is_empty() {
        *transaction = None;
        return Ok((None, Outcome::Committed));
    }
    let is_made = current.make_on(table)?;
    let steps = transaction.take().map(|ended| ended.into_steps());
    if is_made {
        Ok((steps, Outcome::Committed))
    } else {
        Ok((None, Outcome::Refused(Refusal::Changed)))
    }
}
