//! The handler of sample queries.

ghost use Rattle.std.specs.Prelude.{◌≡◌, false, None, IfOk};
ghost use Rattle.conversation_table.specs.Good.{AreSendable};
ghost use Rattle.conversation_table.specs.Handlers.{told_all, told_query};
ghost use Rattle.pg_handlers.specs.PolledQueries.{is_given, query_told};
ghost use Rattle.sample_handlers.specs.Told.{alone_or_not_known, data_left, listed, version_statement};

use crate::answer::{Answer, polls_of, response, responses};
use crate::columns::columns_of;
use crate::copy::SampleCopy;
use crate::errors::not_known;
use crate::meaning::{SampleStatement, meaning_of};
use crate::parser::SampleParser;
use pg_handlers::{ExtendedQueryHandler, PolledQuery, SimpleQueryHandler};
use pg_messages::{PgList, ProtocolVersion};
use pg_portal::{
    ClientInfo, DescribePortalResponse, DescribeStatementResponse, Format, ListRows, PgWireError,
    Portal, StoredStatement,
};
use query_texts::trimmed;
use std::alloc::{AllocError, Global};
use std::sync::Arc;

/// It answers sample queries, simple and extended.
#[derive(Drop)]
pub struct SampleHandler;

impl ExtendedQueryHandler for SampleHandler {
    ghost use Rattle.sample_handlers.specs.Told.{told_extended};

    type Statement = SampleStatement;

    type QueryParser = SampleParser;

    type Rows = ListRows;

    type CopyRows = SampleCopy;

    type Query = PolledQuery<Answer>;

    ghost told = { λ _. told_extended };

    fn query_parser(&self, alloc: Global) -> Result<Arc<SampleParser>, AllocError> {
        Ok(Arc::new(alloc, SampleParser)?)
    }

    /// It has no parameters.
    fn do_describe_statement(
        &self,
        alloc: Global,
        _client: &ClientInfo,
        target: &StoredStatement<SampleStatement>,
    ) -> Result<DescribeStatementResponse, PgWireError> {
        let fields = columns_of(alloc, target.statement, &Format::UnifiedText)?;
        Ok(DescribeStatementResponse::new(PgList::new(alloc), fields))
    }

    fn do_describe_portal(
        &self,
        alloc: Global,
        _client: &ClientInfo,
        target: &Portal<SampleStatement, ListRows>,
    ) -> Result<DescribePortalResponse, PgWireError> {
        let statement = target.statement.statement;
        let fields = columns_of(alloc, statement, &target.result_column_format)?;
        Ok(DescribePortalResponse::new(fields))
    }

    #[tactic(auto, using(crate::proofs::Sendable::response_sendable))]
    fn do_query(
        &self,
        alloc: Global,
        _client: &ClientInfo,
        portal: &Portal<SampleStatement, ListRows>,
        _max_rows: i32,
    ) -> Result<PolledQuery<Answer>, AllocError> {
        let statement = portal.statement.statement;
        let answer = response(alloc, &portal.result_column_format, statement)?;
        Ok(PolledQuery::new(polls_of(statement), Ok(answer)))
    }
}

impl SimpleQueryHandler for SampleHandler {
    ghost use Rattle.sample_handlers.specs.Told.{told_simple};

    type Rows = ListRows;

    type CopyRows = SampleCopy;

    type Query = PolledQuery<PgList<Answer>>;

    ghost told = { λ _. told_simple };

    /// A statement, one of two lists of statements, or `version`.
    fn do_query(
        &self,
        alloc: Global,
        client: &ClientInfo,
        query: &str,
    ) -> Result<PolledQuery<PgList<Answer>>, AllocError> {
        let text = trimmed(query);
        if text == "pair; done" {
            let statements = [SampleStatement::Pair, SampleStatement::Done];
            listed(alloc, 0, &statements)
        } else if text == "done; broken; pair" {
            let statements = [
                SampleStatement::Done,
                SampleStatement::Broken,
                SampleStatement::Pair,
            ];
            listed(alloc, 0, &statements)
        } else if text == "version" {
            listed(alloc, 0, &[version_statement(client.protocol)])
        } else {
            match meaning_of(text) {
                Some(statement) => listed(alloc, polls_of(statement), &[statement]),
                None => refused(alloc),
            }
        }
    }
}

/// The statement that `version` stands for, which depends on the client's protocol version.
fn version_statement(protocol: ProtocolVersion) -> SampleStatement
    ensures { result ≡ version_statement protocol }
{
    match protocol {
        ProtocolVersion::PROTOCOL3_0 => SampleStatement::Done,
        ProtocolVersion::PROTOCOL3_2 => SampleStatement::Pair,
    }
}

/// The query of several statements, which `polls` polls find unready.
#[tactic(auto, using(crate::proofs::Sendable::responses_sendable))]
fn listed(
    alloc: Global,
    polls: u32,
    statements: &[SampleStatement],
) -> Result<PolledQuery<PgList<Answer>>, AllocError>
    ensures unspent { IfOk result (λ query. is_given query.outcome ≡ false) }
    ensures told { IfOk result (λ query.
        told_query (told_all (λ rows. rows) (λ c. data_left c.left))
        (query_told query.unready query.outcome)
        ≡ listed polls statements.now) }
    ensures sendable { IfOk result (λ query. AreSendable (listed polls statements.now).outcome) }
{
    Ok(PolledQuery::new(polls, Ok(responses(alloc, statements)?)))
}

/// The query that is refused.
#[tactic(auto, using(crate::proofs::Sendable::not_known_item))]
fn refused(alloc: Global) -> Result<PolledQuery<PgList<Answer>>, AllocError>
    ensures unspent { IfOk result (λ query. is_given query.outcome ≡ false) }
    ensures told { IfOk result (λ query.
        told_query (told_all (λ rows. rows) (λ c. data_left c.left))
        (query_told query.unready query.outcome)
        ≡ alone_or_not_known None) }
    ensures sendable { IfOk result (λ query. AreSendable (alone_or_not_known None).outcome) }
{
    Ok(PolledQuery::new(0, Err(not_known(alloc)?)))
}
