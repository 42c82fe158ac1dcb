//! Handlers that implement nothing.

ghost use Rattle.std.specs.Prelude.{◌≡◌, [], IfOk};
ghost use Rattle.pg_results.specs.Rows.{IsTellable};
ghost use Rattle.pg_results.specs.declared.error.PgWireError.TheVariants as wire;
ghost use Rattle.pg_client.specs.Errors.{not_implemented};

use crate::copy::{CopyHandler, copy_given_up};
use crate::query::extended::ExtendedQueryHandler;
use crate::query::simple::SimpleQueryHandler;
use crate::query::{QueryState, Turn};
use pg_client::Client;
use pg_messages::{CopyData, CopyDone, CopyFail, DataRow, ErrorInfo, PgList, PgStr};
use pg_portal::{
    ClientInfo, CopySource, DescribePortalResponse, DescribeResponse, DescribeStatementResponse,
    NoopQueryParser, PgWireError, Portal, PortalStore, Response, RowSource, StoredStatement,
};
use std::alloc::{AllocError, Global};
use std::sync::Arc;

/// It refuses queries and COPY with FATAL 08P01 `This feature is not implemented.`, and describes
/// nothing.
#[derive(Drop)]
pub struct NoopHandler;

/// A source of no row and no data.
#[derive(Drop)]
pub struct NoRows;

impl RowSource for NoRows {
    ghost use Rattle.std.specs.Prelude.{[]};

    ghost items = { λ _. [] };

    fn next(&mut self) -> Result<Option<Result<DataRow, PgWireError>>, AllocError> {
        Ok(None)
    }
}

impl CopySource for NoRows {
    ghost use Rattle.std.specs.Prelude.{[]};

    ghost items = { λ _. [] };

    fn next(&mut self) -> Result<Option<Result<CopyData, PgWireError>>, AllocError> {
        Ok(None)
    }
}

/// A simple query that is refused.
#[derive(Drop)]
pub struct NoopSimpleQuery {
    info: Option<ErrorInfo>,
}

impl QueryState for NoopSimpleQuery {
    ghost use Rattle.conversation_table.specs.Noop.{refused_query};

    type Out = Result<PgList<Response<NoRows, NoRows>>, PgWireError>;

    ghost told = { λ q. refused_query q.info };

    fn poll(
        &mut self,
    ) -> Result<Turn<Result<PgList<Response<NoRows, NoRows>>, PgWireError>>, AllocError> {
        match self.info.take() {
            Some(info) => Ok(Turn::Ready(Err(PgWireError::UserError(info)))),
            None => Err(AllocError),
        }
    }
}

/// An extended query that is refused.
#[derive(Drop)]
pub struct NoopExtendedQuery {
    info: Option<ErrorInfo>,
}

impl QueryState for NoopExtendedQuery {
    ghost use Rattle.conversation_table.specs.Noop.{refused_query};

    type Out = Result<Response<NoRows, NoRows>, PgWireError>;

    ghost told = { λ q. refused_query q.info };

    fn poll(&mut self) -> Result<Turn<Result<Response<NoRows, NoRows>, PgWireError>>, AllocError> {
        match self.info.take() {
            Some(info) => Ok(Turn::Ready(Err(PgWireError::UserError(info)))),
            None => Err(AllocError),
        }
    }
}

/// What a client is told about a feature that isn't implemented.
fn not_implemented(alloc: Global) -> Result<ErrorInfo, AllocError>
    ensures info { IfOk result (λ info. info ≡ not_implemented) }
    ensures tellable { IfOk result (λ info. IsTellable (wire.UserError info)) }
{
    Ok(ErrorInfo::new(
        PgStr::copy_of(alloc, "FATAL")?,
        PgStr::copy_of(alloc, "08P01")?,
        PgStr::copy_of(alloc, "This feature is not implemented.")?,
    ))
}

impl SimpleQueryHandler for NoopHandler {
    ghost use Rattle.conversation_table.specs.Noop.{noop_simple};

    type Rows = NoRows;

    type CopyRows = NoRows;

    type Query = NoopSimpleQuery;

    ghost told = { λ _. noop_simple };

    fn do_query(
        &self,
        alloc: Global,
        _client: &ClientInfo,
        _query: &str,
    ) -> Result<NoopSimpleQuery, AllocError> {
        Ok(NoopSimpleQuery {
            info: Some(not_implemented(alloc)?),
        })
    }
}

impl ExtendedQueryHandler for NoopHandler {
    ghost use Rattle.conversation_table.specs.Noop.{noop_extended};

    type Statement = PgStr;

    type QueryParser = NoopQueryParser;

    type Rows = NoRows;

    type CopyRows = NoRows;

    type Query = NoopExtendedQuery;

    ghost told = { λ _. noop_extended };

    fn query_parser(&self, alloc: Global) -> Result<Arc<NoopQueryParser>, AllocError> {
        Ok(Arc::new(alloc, NoopQueryParser::new())?)
    }

    fn do_describe_statement(
        &self,
        alloc: Global,
        _client: &ClientInfo,
        _target: &StoredStatement<PgStr>,
    ) -> Result<DescribeStatementResponse, PgWireError> {
        Ok(DescribeStatementResponse::no_data(alloc))
    }

    fn do_describe_portal(
        &self,
        alloc: Global,
        _client: &ClientInfo,
        _target: &Portal<PgStr, NoRows>,
    ) -> Result<DescribePortalResponse, PgWireError> {
        Ok(DescribePortalResponse::no_data(alloc))
    }

    fn do_query(
        &self,
        alloc: Global,
        _client: &ClientInfo,
        _portal: &Portal<PgStr, NoRows>,
        _max_rows: i32,
    ) -> Result<NoopExtendedQuery, AllocError> {
        Ok(NoopExtendedQuery {
            info: Some(not_implemented(alloc)?),
        })
    }
}

impl CopyHandler for NoopHandler {
    ghost use Rattle.conversation_table.specs.Noop.{noop_copy};

    ghost told = { λ _. noop_copy };

    fn on_copy_data<St: PortalStore>(
        &self,
        alloc: Global,
        _client: &mut Client<St>,
        _copy_data: CopyData,
    ) -> Result<(), PgWireError> {
        Err(PgWireError::UserError(not_implemented(alloc)?))
    }

    fn on_copy_done<St: PortalStore>(
        &self,
        alloc: Global,
        _client: &mut Client<St>,
        _done: CopyDone,
    ) -> Result<(), PgWireError> {
        Err(PgWireError::UserError(not_implemented(alloc)?))
    }

    fn on_copy_fail<St: PortalStore>(
        &self,
        alloc: Global,
        _client: &mut Client<St>,
        fail: CopyFail,
    ) -> PgWireError {
        copy_given_up(alloc, fail)
    }
}
