//! The schedule, as it lies under the lock.

ghost use Rattle.std.specs.Prelude.{◌≡◌, ◌≢◌, Some, Ok, Err, IfOk, OnErr};
ghost use Rattle.std.specs.Arc.{arc_value};
ghost use Rattle.pg_results.specs.Rows.{IsAnswerableItem};
ghost use Rattle.pg_results.specs.declared.error.PgWireError.TheVariants as wire;
ghost use Rattle.shared_worlds.specs.Worlds.{moved_by};
ghost use Rattle.shift_sheets.specs.Answers.{said, told_error};
ghost use Rattle.shift_sheets.specs.Sheets.{shift_sheet};
ghost use Rattle.shift_transactions.specs.Doing.{done};
ghost use Rattle.shift_transactions.specs.Steps.{changed};
ghost use Rattle.schedule.specs.World.{ends_transaction, has_failed, met_by, met_done, order_in};

use asked_queries::{Asked, asked_by};
use pg_client::Client;
use pg_messages::{PgBytes, PgWireFrontendMessage, TransactionStatus};
use pg_portal::{Format, PgWireError, PortalStore};
use shared_worlds::SharedWorld;
use shift_orders::{ShiftOrder, ShiftStatement, order_of, parse_statement};
use shift_rows::ShownShifts;
use shift_sheets::{Answer, Sheets, ShiftSheet};
use shift_table::ShiftTable;
use shift_transactions::{Refusal, Steps, Transaction, do_order};
use std::alloc::{AllocError, Global};
use std::marker::Model;
use std::sync::Arc;

/// Shifts that clients share. Contracts see them as their list.
#[derive(Drop)]
pub struct Schedule {
    table: ShiftTable,
    sheets: Sheets,
}

impl Model for Schedule {
    ghost use Rattle.std.specs.Prelude.{List};
    ghost use Rattle.shift_table.specs.declared.shift.Shift.{Shift};

    ghost Value = { List Shift };

    ghost view = { λ s. s.table };
}

impl SharedWorld for Schedule {
    ghost use Rattle.std.specs.Prelude.{List};
    ghost use Rattle.shift_table.specs.declared.shift.Shift.{Shift};
    ghost use Rattle.schedule.specs.World.{schedule};

    type Change = Steps;

    type Own = Option<Transaction>;

    type Sheet = ShiftSheet;

    ghost Place = { List Shift };

    ghost place = { λ s. s };

    ghost told = { schedule };

    fn new(alloc: Global) -> Result<Schedule, AllocError> {
        Ok(Schedule {
            table: ShiftTable::new(alloc),
            sheets: Sheets::new(alloc)?,
        })
    }

    fn own(_alloc: Global) -> Result<Option<Transaction>, AllocError> {
        Ok(None)
    }

    fn sheet(alloc: Global) -> Result<Arc<ShiftSheet>, AllocError> {
        ShiftSheet::new(alloc, Answer::Nothing)
    }

    fn meet<St: PortalStore<Statement = ShiftStatement, Rows = ShownShifts>>(
        &mut self,
        alloc: Global,
        own: &mut Option<Transaction>,
        client: &Client<St>,
        message: &PgWireFrontendMessage,
    ) -> Result<(Arc<ShiftSheet>, Option<Steps>), AllocError> {
        let failed = has_failed(client.info.status);
        match asked_by(client, message) {
            Asked::Nothing => Ok((self.sheets.nothing()?, None)),
            Asked::Simple(query) => match parse_statement(alloc, query) {
                Ok(statement) => {
                    self.meet_statement(alloc, own, failed, &statement, &[], &Format::UnifiedText)
                }
                Err(error) => Ok((sheet_of_error(alloc, error)?, None)),
            },
            Asked::Extended(portal) => self.meet_statement(
                alloc,
                own,
                failed,
                &portal.statement.statement,
                portal.parameters.as_slice(),
                &portal.parameter_format,
            ),
        }
    }

    fn leave(own: &mut Option<Transaction>) {
        *own = None;
    }
}

impl Schedule {
    /// Does what a statement asks with its parameters, and gives the sheet that tells it. The only error
    /// is running out of memory, and then all is as it was.
    fn meet_statement(
        &mut self,
        alloc: Global,
        own: &mut Option<Transaction>,
        has_failed: bool,
        statement: &ShiftStatement,
        parameters: &[Option<PgBytes>],
        formats: &Format,
    ) -> Result<(Arc<ShiftSheet>, Option<Steps>), AllocError>
        ensures met { IfOk result (λ r. record {
          change = r.1;
          own = own.new;
          told = shift_sheet (said (arc_value r.0));
        } ≡ met_by self.old own.old has_failed
            (Some (order_in has_failed statement.now parameters.now formats.now))) }
        ensures moved { IfOk result (λ r. self.new ≡ moved_by changed self.old r.1) }
        ensures place { OnErr result (self.new ≡ self.old) }
        ensures own { OnErr result (own.new ≡ own.old) }
    {
        if has_failed && !ends_transaction(statement) {
            return Ok((self.sheets.refused(Refusal::Failed)?, None));
        }
        match order_of(alloc, statement, parameters, formats) {
            Ok(order) => self.obey(alloc, own, has_failed, order),
            Err(error) => Ok((sheet_of_error(alloc, error)?, None)),
        }
    }

    /// Does what an order asks, and gives the sheet that tells it. The only error is running out of
    /// memory, and then all is as it was.
    fn obey(
        &mut self,
        alloc: Global,
        own: &mut Option<Transaction>,
        has_failed: bool,
        order: ShiftOrder,
    ) -> Result<(Arc<ShiftSheet>, Option<Steps>), AllocError>
        ensures met { IfOk result (λ r. record {
          change = r.1;
          own = own.new;
          told = shift_sheet (said (arc_value r.0));
        } ≡ met_done (done has_failed self.old own.old order)) }
        ensures moved { IfOk result (λ r. self.new ≡ moved_by changed self.old r.1) }
        ensures place { OnErr result (self.new ≡ self.old) }
        ensures own { OnErr result (own.new ≡ own.old) }
    {
        let sheets = self.sheets.for_order(has_failed, &order)?;
        let (change, outcome) = do_order(alloc, &mut self.table, own, has_failed, order)?;
        Ok((sheets.sheet_of(alloc, &self.sheets, outcome)?, change))
    }
}

/// Whether a transaction has failed.
fn has_failed(status: TransactionStatus) -> bool
    ensures { result ≡ has_failed status }
{
    status == TransactionStatus::Error
}

/// Whether a statement ends a transaction.
fn ends_transaction(statement: &ShiftStatement) -> bool
    ensures { result ≡ ends_transaction statement.now }
{
    matches!(statement, ShiftStatement::Commit | ShiftStatement::Rollback)
}

/// The sheet of an error. The only error is running out of memory, as `NoMemory` tells too.
fn sheet_of_error(alloc: Global, error: PgWireError) -> Result<Arc<ShiftSheet>, AllocError>
    requires { IsAnswerableItem error }
    ensures said { IfOk result (λ sheet. said (arc_value sheet) ≡ Err (told_error error)) }
    ensures known { IfOk result (λ _. error ≢ wire.NoMemory) }
{
    let info = error.into_info(alloc)?;
    ShiftSheet::new(alloc, Answer::Error(info))
}
