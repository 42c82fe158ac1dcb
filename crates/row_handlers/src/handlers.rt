//! The handlers.

ghost use Rattle.std.specs.Prelude.{◌≡◌, [], IfOk, IfErr};
ghost use Rattle.std.specs.List.{AllByRecursion};
ghost use Rattle.pg_results.specs.Responses.{told_responses};
ghost use Rattle.pg_results.specs.Rows.{IsAnswerableItem};
ghost use Rattle.pg_results.specs.Texts.{IsShortText};
ghost use Rattle.pg_results.specs.Told.{IsOutcome};
ghost use Rattle.conversation_table.specs.Good.{IsSendableResponse};
ghost use Rattle.conversation_table.specs.Handlers.{told_all};

use crate::answers::RowAnswers;
use crate::parser::RowParser;
use crate::response::{begun, response, simple_answer};
use pg_handlers::{
    ExtendedQueryHandler, NoRows, NoopHandler, PgWireServerHandlers, PolledQuery,
    SimpleQueryHandler,
};
use pg_messages::PgList;
use pg_portal::{
    ClientInfo, DescribePortalResponse, DescribeStatementResponse, Format, PgWireError, Portal,
    Response, StoredStatement,
};
use std::alloc::{AllocError, Global};
use std::marker::Model;
use std::sync::Arc;

/// Handlers that answer simple and extended queries with rows, and refuse COPY.
#[derive(Drop)]
pub struct RowHandlers<A: RowAnswers> {
    parser: Arc<RowParser<A>>,
    copying: NoopHandler,
}

impl<A: RowAnswers> Model for RowHandlers<A> {
    ghost use Rattle.std.specs.Arc.{arc_value};

    ghost Value = { A };

    ghost view = { λ handlers. (arc_value handlers.parser).answers };
}

impl<A: RowAnswers> RowHandlers<A> {
    ghost use Rattle.row_handlers.specs.Told.{alone, simple_answer};

    /// Handlers that answer queries as `answers` says.
    pub fn new(alloc: Global, answers: A) -> Result<RowHandlers<A>, AllocError>
        ensures { IfOk result (λ handlers. handlers ≡ answers) }
    {
        Ok(RowHandlers {
            parser: Arc::new(alloc, RowParser { answers })?,
            copying: NoopHandler,
        })
    }

    /// The answer to a simple query, which has no parameters, and whose rows are text.
    fn simple_response(
        &self,
        alloc: Global,
        query: &str,
    ) -> Result<PgList<Response<A::Rows, NoRows>>, PgWireError>
        requires { IsShortText query.now }
        ensures outcome { IsOutcome (alone (simple_answer (A.told self.now)
            ((A.told self.now).parse query.now None)))
            (told_all A.Rows.items (λ none. []) result) }
        ensures sendable { IfOk result (λ all. AllByRecursion IsSendableResponse
            (told_responses A.Rows.items (λ none. []) all)) }
        ensures answerable { IfErr result IsAnswerableItem }
    {
        let mut all = PgList::new(alloc);
        all.push(simple_answer(alloc, &self.parser.answers, query)?)?;
        Ok(all)
    }
}

impl<A: RowAnswers> SimpleQueryHandler for RowHandlers<A> {
    ghost use Rattle.row_handlers.specs.Told.{told_simple};

    type Rows = A::Rows;

    type CopyRows = NoRows;

    type Query = PolledQuery<PgList<Response<A::Rows, NoRows>>>;

    ghost told = { λ answers. told_simple (A.told answers) };

    fn do_query(
        &self,
        alloc: Global,
        _client: &ClientInfo,
        query: &str,
    ) -> Result<PolledQuery<PgList<Response<A::Rows, NoRows>>>, AllocError> {
        begun(self.simple_response(alloc, query))
    }
}

impl<A: RowAnswers> ExtendedQueryHandler for RowHandlers<A> {
    ghost use Rattle.row_handlers.specs.Told.{told_extended};

    type Statement = A::Statement;

    type QueryParser = RowParser<A>;

    type Rows = A::Rows;

    type CopyRows = NoRows;

    type Query = PolledQuery<Response<A::Rows, NoRows>>;

    ghost told = { λ answers. told_extended (A.told answers) };

    fn query_parser(&self, _alloc: Global) -> Result<Arc<RowParser<A>>, AllocError> {
        self.parser.clone()
    }

    fn do_describe_statement(
        &self,
        alloc: Global,
        _client: &ClientInfo,
        target: &StoredStatement<A::Statement>,
    ) -> Result<DescribeStatementResponse, PgWireError> {
        let answers = &self.parser.answers;
        let types = answers.parameter_types(alloc, &target.statement)?;
        let fields = answers.columns(alloc, &target.statement, &Format::UnifiedText)?;
        Ok(DescribeStatementResponse::new(types, fields))
    }

    fn do_describe_portal(
        &self,
        alloc: Global,
        _client: &ClientInfo,
        target: &Portal<A::Statement, A::Rows>,
    ) -> Result<DescribePortalResponse, PgWireError> {
        let statement = &target.statement.statement;
        let formats = &target.result_column_format;
        let fields = self.parser.answers.columns(alloc, statement, formats)?;
        Ok(DescribePortalResponse::new(fields))
    }

    fn do_query(
        &self,
        alloc: Global,
        _client: &ClientInfo,
        portal: &Portal<A::Statement, A::Rows>,
        _max_rows: i32,
    ) -> Result<PolledQuery<Response<A::Rows, NoRows>>, AllocError> {
        begun(response(
            alloc,
            &self.parser.answers,
            &portal.statement.statement,
            portal.parameters.as_slice(),
            &portal.parameter_format,
            &portal.result_column_format,
        ))
    }
}

impl<A: RowAnswers> PgWireServerHandlers for RowHandlers<A> {
    ghost use Rattle.row_handlers.specs.Told.{row_handlers};

    type Simple = RowHandlers<A>;

    type Extended = RowHandlers<A>;

    type Copying = NoopHandler;

    ghost told = { λ answers. row_handlers (A.told answers) };

    fn simple_query_handler(&self) -> &RowHandlers<A> {
        self
    }

    fn extended_query_handler(&self) -> &RowHandlers<A> {
        self
    }

    fn copy_handler(&self) -> &NoopHandler {
        &self.copying
    }
}
