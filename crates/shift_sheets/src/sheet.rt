//! A sheet: the handlers of one message.

ghost use Rattle.std.specs.Prelude.{◌≡◌, [], IfOk, IfErr};
ghost use Rattle.std.specs.Arc.{arc_value};
ghost use Rattle.std.specs.List.{AllByRecursion};
ghost use Rattle.conversation_table.specs.Good.{IsSendableResponse};
ghost use Rattle.conversation_table.specs.Handlers.{told_all};
ghost use Rattle.pg_results.specs.Responses.{told_responses};
ghost use Rattle.pg_results.specs.Rows.{IsAnswerableItem};
ghost use Rattle.pg_results.specs.Told.{IsOutcome};
ghost use Rattle.pg_results.specs.declared.format.Format.TheVariants as format;
ghost use Rattle.row_handlers.specs.Told.{alone};
ghost use Rattle.shift_sheets.specs.Answers.{CanBeTold, response_in, said};

use crate::answer::Answer;
use crate::parser::{ShiftParser, columns_of};
use crate::responses::{ShiftResponse, response};
use pg_handlers::{
    ExtendedQueryHandler, NoRows, NoopHandler, PgWireServerHandlers, PolledQuery,
    SimpleQueryHandler,
};
use pg_messages::PgList;
use pg_portal::{
    ClientInfo, DescribePortalResponse, DescribeStatementResponse, Format, PgWireError, Portal,
    StoredStatement,
};
use row_handlers::begun;
use shift_orders::{ShiftStatement, parameter_types};
use shift_rows::ShownShifts;
use std::alloc::{AllocError, Global};
use std::marker::Model;
use std::sync::Arc;

/// The handlers of one message, by which each query is answered alike. Contracts see the answer.
#[derive(Drop)]
pub struct ShiftSheet {
    answer: Answer,
    parser: Arc<ShiftParser>,
    copying: NoopHandler,
}

impl Model for ShiftSheet {
    ghost use Rattle.shift_sheets.specs.declared.answer.Answer.{Answer};
    ghost use Rattle.shift_sheets.specs.Answers.{CanBeTold};

    ghost Value = { Answer };

    ghost view = { λ sheet. sheet.answer };

    ghost invariant = { λ sheet. CanBeTold sheet.answer };
}

impl ShiftSheet {
    /// The sheet of an answer, which can be told. The only error is running out of memory.
    pub fn new(alloc: Global, answer: Answer) -> Result<Arc<ShiftSheet>, AllocError>
        requires { CanBeTold answer }
        ensures { IfOk result (λ sheet. arc_value sheet ≡ answer) }
    {
        let parser = Arc::new(alloc, ShiftParser)?;
        let copying = NoopHandler;
        let sheet = ShiftSheet {
            answer,
            parser,
            copying,
        };
        Ok(Arc::new(alloc, sheet)?)
    }

    /// The responses to a simple query, whose rows are text: one.
    fn simple_response(&self, alloc: Global) -> Result<PgList<ShiftResponse>, PgWireError>
        ensures outcome { IsOutcome (alone (response_in format.UnifiedText (said self.now)))
            (told_all (λ rows. rows) (λ none. []) result) }
        ensures sendable { IfOk result (λ all. AllByRecursion IsSendableResponse
            (told_responses (λ rows. rows) (λ none. []) all)) }
        ensures answerable { IfErr result IsAnswerableItem }
    {
        let mut all = PgList::new(alloc);
        all.push(response(alloc, &self.answer, &Format::UnifiedText)?)?;
        Ok(all)
    }
}

impl SimpleQueryHandler for ShiftSheet {
    ghost use Rattle.shift_sheets.specs.Answers.{said};
    ghost use Rattle.shift_sheets.specs.Sheets.{told_simple};

    type Rows = ShownShifts;

    type CopyRows = NoRows;

    type Query = PolledQuery<PgList<ShiftResponse>>;

    ghost told = { λ answer. told_simple (said answer) };

    fn do_query(
        &self,
        alloc: Global,
        _client: &ClientInfo,
        _query: &str,
    ) -> Result<PolledQuery<PgList<ShiftResponse>>, AllocError> {
        begun(self.simple_response(alloc))
    }
}

impl ExtendedQueryHandler for ShiftSheet {
    ghost use Rattle.shift_sheets.specs.Answers.{said};
    ghost use Rattle.shift_sheets.specs.Sheets.{told_extended};

    type Statement = ShiftStatement;

    type QueryParser = ShiftParser;

    type Rows = ShownShifts;

    type CopyRows = NoRows;

    type Query = PolledQuery<ShiftResponse>;

    ghost told = { λ answer. told_extended (said answer) };

    fn query_parser(&self, _alloc: Global) -> Result<Arc<ShiftParser>, AllocError> {
        self.parser.clone()
    }

    fn do_describe_statement(
        &self,
        alloc: Global,
        _client: &ClientInfo,
        target: &StoredStatement<ShiftStatement>,
    ) -> Result<DescribeStatementResponse, PgWireError> {
        let types = parameter_types(alloc, &target.statement)?;
        let fields = columns_of(alloc, &target.statement, &Format::UnifiedText)?;
        Ok(DescribeStatementResponse::new(types, fields))
    }

    fn do_describe_portal(
        &self,
        alloc: Global,
        _client: &ClientInfo,
        target: &Portal<ShiftStatement, ShownShifts>,
    ) -> Result<DescribePortalResponse, PgWireError> {
        let statement = &target.statement.statement;
        let fields = columns_of(alloc, statement, &target.result_column_format)?;
        Ok(DescribePortalResponse::new(fields))
    }

    fn do_query(
        &self,
        alloc: Global,
        _client: &ClientInfo,
        portal: &Portal<ShiftStatement, ShownShifts>,
        _max_rows: i32,
    ) -> Result<PolledQuery<ShiftResponse>, AllocError> {
        begun(response(alloc, &self.answer, &portal.result_column_format))
    }
}

impl PgWireServerHandlers for ShiftSheet {
    ghost use Rattle.shift_sheets.specs.Answers.{said};
    ghost use Rattle.shift_sheets.specs.Sheets.{shift_sheet};

    type Simple = ShiftSheet;

    type Extended = ShiftSheet;

    type Copying = NoopHandler;

    ghost told = { λ answer. shift_sheet (said answer) };

    fn simple_query_handler(&self) -> &ShiftSheet {
        self
    }

    fn extended_query_handler(&self) -> &ShiftSheet {
        self
    }

    fn copy_handler(&self) -> &NoopHandler {
        &self.copying
    }
}
