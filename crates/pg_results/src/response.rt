//! Responses to queries.

ghost use Rattle.std.specs.Prelude.{◌≡◌, IfOk, OnOk, OnErr, codes};
ghost use Rattle.std.specs.Arc.{arc_value};
ghost use Rattle.std.specs.Borrow.{Lends, sem};
ghost use Rattle.pg_results.specs.contracts.response.QueryResponse.{the_row};

use crate::copy::CopyResponse;
use crate::field_info::FieldInfo;
use crate::rows::RowSource;
use crate::tag::Tag;
use pg_messages::{ErrorInfo, PgList, PgStr};
use std::alloc::{AllocError, Global};
use std::sync::Arc;

/// Rows that a query gives.
#[derive(Drop)]
pub struct QueryResponse<R> {
    /// The command of their tag, such as `SELECT`.
    pub command_tag: PgStr,
    /// Their columns.
    pub row_schema: Arc<PgList<FieldInfo>>,
    /// The rows to come.
    pub data_rows: R,
}

impl<R: RowSource> QueryResponse<R> {
    /// Rows of these columns, under the tag `SELECT`.
    pub fn new(
        alloc: Global,
        field_defs: Arc<PgList<FieldInfo>>,
        row_stream: R,
    ) -> Result<QueryResponse<R>, AllocError>
        ensures tag { IfOk result (λ response. response.command_tag ≡ codes "SELECT") }
        ensures columns { IfOk result (λ response. response.row_schema ≡ field_defs) }
        ensures rows { IfOk result (λ response. response.data_rows ≡ row_stream) }
    {
        Ok(QueryResponse {
            command_tag: PgStr::copy_of(alloc, "SELECT")?,
            row_schema: field_defs,
            data_rows: row_stream,
        })
    }

    /// The command of the rows' tag.
    pub fn command_tag(&self) -> &str
        ensures { result.now ≡ self.now.command_tag }
    {
        self.command_tag.as_str()
    }

    /// Gives the rows' tag another command. After an error the response is as it was.
    pub fn set_command_tag(&mut self, alloc: Global, command_tag: &str) -> Result<(), AllocError>
        ensures ok { OnOk result (self.new ≡ record self.old { command_tag = command_tag.now }) }
        ensures err { OnErr result (self.new ≡ self.old) }
    {
        self.command_tag = PgStr::copy_of(alloc, command_tag)?;
        Ok(())
    }

    /// The rows' columns.
    pub fn row_schema(&self) -> Result<Arc<PgList<FieldInfo>>, AllocError>
        ensures { IfOk result (λ columns. arc_value columns ≡ arc_value self.now.row_schema) }
    {
        self.row_schema.clone()
    }

    /// The rows to come, borrowed mutably.
    pub fn data_rows(&mut self) -> &mut R
        ensures* writes_back { sem 𝓛 (Lends (the_row R.row) R.row self.entry result
            (λ w. record self.old { data_rows = w })) }
        ensures value { result.now ≡ self.old.data_rows }
    {
        &mut self.data_rows
    }
}

/// A response to a query.
#[derive(Drop)]
pub enum Response<R, C> {
    /// The query was empty.
    EmptyQuery,
    /// Rows.
    Query(QueryResponse<R>),
    /// A command was done.
    Execution(Tag),
    /// A transaction was begun.
    TransactionStart(Tag),
    /// A transaction was ended.
    TransactionEnd(Tag),
    /// The query was refused.
    Error(ErrorInfo),
    /// The client may send data.
    CopyIn(CopyResponse<C>),
    /// Data of the server follows.
    CopyOut(CopyResponse<C>),
    /// Data of both sides follows.
    CopyBoth(CopyResponse<C>),
}
