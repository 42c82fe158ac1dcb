//! Statements are answered with their rows.

ghost use Rattle.std.specs.Prelude.{◌≡◌, ◌↔◌, [], Some, Err, IfOk, IfErr, IsErr};
ghost use Rattle.conversation_table.specs.Good.{IsSendableResponse};
ghost use Rattle.conversation_table.specs.Handlers.{told_one};
ghost use Rattle.pg_results.specs.Responses as response;
ghost use Rattle.pg_results.specs.Responses.{told_response};
ghost use Rattle.pg_results.specs.Rows.{IsAnswerableItem};
ghost use Rattle.pg_results.specs.Texts.{IsShortText};
ghost use Rattle.pg_results.specs.Told.{IsOutcome, told_rows};
ghost use Rattle.pg_results.specs.declared.error.PgWireError.TheVariants as wire;
ghost use Rattle.row_handlers.specs.Told.{answer_of, rows_under, simple_answer};

use crate::answers::RowAnswers;
use pg_handlers::{NoRows, PolledQuery};
use pg_messages::{PgBytes, PgList};
use pg_portal::{FieldInfo, Format, PgWireError, QueryResponse, Response, RowSource};
use std::alloc::{AllocError, Global};
use std::sync::Arc;

/// What a statement is answered: its rows under their columns.
pub(crate) fn response<A: RowAnswers>(
    alloc: Global,
    answers: &A,
    statement: &A::Statement,
    parameters: &[Option<PgBytes>],
    parameter_format: &Format,
    formats: &Format,
) -> Result<Response<A::Rows, NoRows>, PgWireError>
    ensures outcome { IsOutcome
        (answer_of (A.told answers.now) statement.now parameters.now parameter_format.now
        formats.now) (told_one A.Rows.items (λ none. []) result) }
    ensures sendable { IfOk result (λ answer.
        IsSendableResponse (told_response A.Rows.items (λ none. []) answer)) }
    ensures answerable { IfErr result IsAnswerableItem }
{
    let rows = answers.rows(alloc, statement, parameters, parameter_format, formats)?;
    let fields = answers.columns(alloc, statement, formats)?;
    Ok(Response::Query(rows_under(alloc, fields, rows)?))
}

/// What a simple query is answered, which has no parameters, and whose rows are text.
pub(crate) fn simple_answer<A: RowAnswers>(
    alloc: Global,
    answers: &A,
    query: &str,
) -> Result<Response<A::Rows, NoRows>, PgWireError>
    requires { IsShortText query.now }
    ensures outcome { IsOutcome (simple_answer (A.told answers.now)
        ((A.told answers.now).parse query.now None)) (told_one A.Rows.items (λ none. []) result) }
    ensures sendable { IfOk result (λ answer.
        IsSendableResponse (told_response A.Rows.items (λ none. []) answer)) }
    ensures answerable { IfErr result IsAnswerableItem }
{
    let statement = answers.parse(alloc, query, None)?;
    let text = Format::UnifiedText;
    response(alloc, answers, &statement, &[], &text, &text)
}

/// Rows under their columns and the tag SELECT.
fn rows_under<R: RowSource>(
    alloc: Global,
    fields: PgList<FieldInfo>,
    rows: R,
) -> Result<QueryResponse<R>, AllocError>
    ensures { IfOk result (λ answer.
        response.Query (told_rows R.items answer) ≡ rows_under fields (R.items rows)) }
{
    QueryResponse::new(alloc, Arc::new(alloc, fields)?, rows)
}

/// The query that gives this outcome at its first poll. Where memory ran out, none begins.
pub fn begun<T: Drop>(outcome: Result<T, PgWireError>) -> Result<PolledQuery<T>, AllocError>
    ensures owes { IfOk result (λ query. query.unready ≡ 0) }
    ensures outcome { IfOk result (λ query. query.outcome ≡ Some outcome) }
    ensures none { IsErr result ↔ (outcome ≡ Err wire.NoMemory) }
{
    match outcome {
        Err(PgWireError::NoMemory) => Err(AllocError),
        outcome => Ok(PolledQuery::new(0, outcome)),
    }
}
