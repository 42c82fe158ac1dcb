//! What sample statements are answered.

ghost use Rattle.std.specs.Prelude.{◌≡◌, IfOk, map};
ghost use Rattle.pg_results.specs.Responses as told;
ghost use Rattle.pg_results.specs.Responses.{told_copy, told_response, told_responses};
ghost use Rattle.pg_results.specs.declared.format.Format.TheVariants as format;
ghost use Rattle.sample_handlers.specs.Told.{column_format, copy_told, data_left, pair_items, broken_items, long_items, polls_of, rows_told, response_of};

use crate::columns::{column_format, columns};
use crate::copy::SampleCopy;
use crate::errors::error;
use crate::meaning::SampleStatement;
use crate::rows::{broken_rows, long_rows, pair_rows};
use pg_messages::PgList;
use pg_portal::{CopyResponse, Format, ListRows, QueryResponse, Response, Tag};
use std::alloc::{AllocError, Global};
use std::sync::Arc;

/// What a sample statement is answered.
pub(crate) type Answer = Response<ListRows, SampleCopy>;

/// How many polls find a statement's query unready.
pub(crate) fn polls_of(statement: SampleStatement) -> u32
    ensures { result ≡ polls_of statement }
{
    match statement {
        SampleStatement::Late => 1,
        _ => 0,
    }
}

/// The response to a statement, with its rows in these formats.
pub(crate) fn response(
    alloc: Global,
    formats: &Format,
    statement: SampleStatement,
) -> Result<Answer, AllocError>
    ensures { IfOk result (λ response. told_response (λ rows. rows) (λ c. data_left c.left) response
        ≡ response_of formats.now statement) }
{
    match statement {
        SampleStatement::Pair => pair(alloc, formats),
        SampleStatement::Broken => broken(alloc, formats),
        SampleStatement::Long => long(alloc, formats, 20000),
        SampleStatement::CopyIn => Ok(Response::CopyIn(copy(alloc, 0, 0))),
        SampleStatement::CopyOut => Ok(Response::CopyOut(copy(alloc, 1, 2))),
        SampleStatement::CopyBoth => Ok(Response::CopyBoth(copy(alloc, 0, 1))),
        SampleStatement::Failed => Ok(Response::Error(error(alloc, "22023", "refused")?)),
        SampleStatement::Done => {
            let tag = Tag::new(alloc, "INSERT")?.with_oid(0).with_rows(1);
            Ok(Response::Execution(tag))
        }
        SampleStatement::Late => pair(alloc, formats),
        SampleStatement::Nothing => Ok(Response::EmptyQuery),
    }
}

/// Both rows.
fn pair(alloc: Global, formats: &Format) -> Result<Answer, AllocError>
    ensures { IfOk result (λ response. told_response (λ rows. rows) (λ c. data_left c.left) response
        ≡ told.Query (rows_told formats.now (pair_items (column_format formats.now 1)))) }
{
    let rows = pair_rows(alloc, column_format(formats, 1))?;
    rows_response(alloc, formats, rows)
}

/// A row, an error, and another row twice.
fn broken(alloc: Global, formats: &Format) -> Result<Answer, AllocError>
    ensures { IfOk result (λ response. told_response (λ rows. rows) (λ c. data_left c.left) response
        ≡ told.Query (rows_told formats.now (broken_items (column_format formats.now 1)))) }
{
    let rows = broken_rows(alloc, column_format(formats, 1))?;
    rows_response(alloc, formats, rows)
}

/// `count` rows, an error, and another row.
fn long(alloc: Global, formats: &Format, count: usize) -> Result<Answer, AllocError>
    ensures { IfOk result (λ response. told_response (λ rows. rows) (λ c. data_left c.left) response
        ≡ told.Query (rows_told formats.now
        (long_items count (column_format formats.now 1)))) }
{
    let rows = long_rows(alloc, column_format(formats, 1), count)?;
    rows_response(alloc, formats, rows)
}

/// Rows under their columns.
fn rows_response(alloc: Global, formats: &Format, rows: ListRows) -> Result<Answer, AllocError>
    ensures { IfOk result (λ response. told_response (λ rows. rows) (λ c. data_left c.left) response
        ≡ told.Query (rows_told formats.now rows)) }
{
    let schema = Arc::new(alloc, columns(alloc, formats)?)?;
    Ok(Response::Query(QueryResponse::new(alloc, schema, rows)?))
}

/// A COPY of one column in a format, with `count` data.
fn copy(alloc: Global, format: i8, count: u8) -> CopyResponse<SampleCopy>
    ensures { told_copy (λ c. data_left c.left) result ≡ copy_told format count }
{
    CopyResponse::new(format, 1, SampleCopy::new(alloc, count))
}

/// The responses to several statements in their order, with rows as text.
pub(crate) fn responses(
    alloc: Global,
    statements: &[SampleStatement],
) -> Result<PgList<Answer>, AllocError>
    ensures { IfOk result (λ responses. told_responses (λ rows. rows) (λ c. data_left c.left)
        responses
        ≡ map (response_of format.UnifiedText) statements.now) }
{
    let mut all = PgList::new(alloc);
    for statement in statements {
        all.push(response(alloc, &Format::UnifiedText, *statement)?)?;
    }
    Ok(all)
}
