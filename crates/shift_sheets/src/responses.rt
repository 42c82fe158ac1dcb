//! The responses that answers come to.

ghost use Rattle.std.specs.Prelude.{◌≡◌, [], IfOk, IfErr, codes};
ghost use Rattle.std.specs.Arc.{arc_value};
ghost use Rattle.pg_messages.specs.Replies.{IsEncodable};
ghost use Rattle.pg_replies.specs.Replies.{row_description};
ghost use Rattle.pg_results.specs.Responses as response;
ghost use Rattle.conversation_table.specs.Good.{IsSendableResponse};
ghost use Rattle.conversation_table.specs.Handlers.{told_one};
ghost use Rattle.pg_results.specs.Responses.{told_response};
ghost use Rattle.pg_results.specs.Rows.{IsAnswerableItem};
ghost use Rattle.pg_results.specs.Told.{IsOutcome, told_rows};
ghost use Rattle.row_handlers.specs.Told.{rows_under};
ghost use Rattle.shift_rows.specs.ShiftRows.{columns, shift_items};
ghost use Rattle.shift_sheets.specs.Answers.{CanBeTold, refused, response_in, said};

use crate::answer::Answer;
use pg_handlers::NoRows;
use pg_messages::{ErrorInfo, PgStr};
use pg_portal::{Format, PgWireError, QueryResponse, Response, Tag};
use row_handlers::user_error;
use shift_rows::{ShownShifts, columns};
use shift_table::Shift;
use shift_transactions::Refusal;
use std::alloc::{AllocError, Global};
use std::sync::Arc;

/// A response about shifts.
pub(crate) type ShiftResponse = Response<ShownShifts, NoRows>;

/// The response that an answer comes to, whose rows are in these formats.
pub(crate) fn response(
    alloc: Global,
    answer: &Answer,
    formats: &Format,
) -> Result<ShiftResponse, PgWireError>
    requires { CanBeTold answer.now }
    ensures outcome { IsOutcome (response_in formats.now (said answer.now))
        (told_one (λ rows. rows) (λ none. []) result) }
    ensures sendable { IfOk result (λ response. IsSendableResponse
        (told_response (λ rows. rows) (λ none. []) response)) }
    ensures answerable { IfErr result IsAnswerableItem }
{
    match answer {
        Answer::Began => Ok(Response::TransactionStart(Tag::new(alloc, "BEGIN")?)),
        Answer::Committed => Ok(Response::TransactionEnd(Tag::new(alloc, "COMMIT")?)),
        Answer::RolledBack => Ok(Response::TransactionEnd(Tag::new(alloc, "ROLLBACK")?)),
        Answer::Booked => Ok(Response::Execution(Tag::new(alloc, "BOOK")?.with_rows(1))),
        Answer::Canceled => Ok(Response::Execution(Tag::new(alloc, "CANCEL")?.with_rows(1))),
        Answer::Shown(shifts) => Ok(Response::Query(shown(alloc, shifts, formats)?)),
        Answer::Refused(refusal) => Err(refused(alloc, *refusal)?),
        Answer::Error(info) => Err(PgWireError::UserError(copy_of(alloc, info)?)),
        Answer::Nothing => Err(user_error(alloc, "XX000", "no query is asked for")?),
    }
}

/// The rows of shifts under their columns.
fn shown(
    alloc: Global,
    shifts: &Arc<Vec<Shift>>,
    formats: &Format,
) -> Result<QueryResponse<ShownShifts>, AllocError>
    ensures told { IfOk result (λ r. response.Query (told_rows (λ rows. rows) r)
        ≡ rows_under (columns formats.now)
        (shift_items (record { shifts = (arc_value shifts.now).items; formats = formats.now }))) }
    ensures sendable { IfOk result (λ r. IsEncodable (row_description (arc_value r.row_schema))) }
    ensures tag { IfOk result (λ r. r.command_tag ≡ codes "SELECT") }
{
    let fields = Arc::new(alloc, columns(alloc, formats)?)?;
    let rows = ShownShifts::new(alloc, Arc::try_clone(shifts)?, formats.copy_of(alloc)?);
    QueryResponse::new(alloc, fields, rows)
}

/// The error of an order that was refused.
#[tactic(auto, using(crate::proofs::Sendable::refused_answerable))]
fn refused(alloc: Global, refusal: Refusal) -> Result<PgWireError, AllocError>
    ensures error { IfOk result (λ e. e ≡ refused refusal) }
    ensures answerable { IfOk result IsAnswerableItem }
{
    match refusal {
        Refusal::NotPositive => user_error(alloc, "22023", "the length of a shift is above zero"),
        Refusal::Clash => user_error(alloc, "23P01", "the shift clashes with one that is booked"),
        Refusal::UnknownShift => user_error(alloc, "42704", "no shift of this name starts then"),
        Refusal::Changed => user_error(
            alloc,
            "40001",
            "could not serialize access due to concurrent update",
        ),
        Refusal::Failed => user_error(
            alloc,
            "25P02",
            "current transaction is aborted, commands ignored until end of transaction block",
        ),
    }
}

/// A copy of an error.
fn copy_of(alloc: Global, info: &ErrorInfo) -> Result<ErrorInfo, AllocError>
    ensures { IfOk result (λ copy. copy ≡ info.now) }
{
    Ok(ErrorInfo::new(
        PgStr::copy_of(alloc, info.severity.as_str())?,
        PgStr::copy_of(alloc, info.code.as_str())?,
        PgStr::copy_of(alloc, info.message.as_str())?,
    ))
}
