//! The handlers of a server of relations.

ghost use Rattle.std.specs.Prelude.{◌≡◌, ◌≤◌, false, IfOk, length};
ghost use Rattle.pg_messages.specs.Replies.{IsEncodable};
ghost use Rattle.pg_replies.specs.Replies.{parameter_description};
ghost use Rattle.relation_tables.specs.RelationHandler.{given_types};

use crate::columns::fields_of;
use crate::query::{RelationResponse, SimpleQuery};
use crate::served::ServedRelations;
use crate::simple::{other_query, statement_query};
use crate::statement_lookup::find_trimmed_statement;
use crate::statement_response::{polls_of, response_of};
use crate::table::RelationTable;
use pg_handlers::{
    ExtendedQueryHandler, NoopHandler, PgWireServerHandlers, PolledQuery, SimpleQueryHandler,
};
use pg_messages::PgList;
use pg_portal::{
    ClientInfo, DescribePortalResponse, DescribeStatementResponse, Format, PgWireError, Portal,
    StoredStatement,
};
use pg_text::PgType;
use query_texts::trimmed;
use relation_tables::RelationStatement;
use std::alloc::{AllocError, Global};
use std::sync::Arc;

/// Serves relations: extended and simple queries of them. A simple query may be `COPY name TO
/// STDOUT`. COPY from the client goes to `NoopHandler`, which refuses it.
#[derive(Drop)]
pub struct RelationHandlerOver<B> {
    /// The relations.
    pub relations: B,
    /// The handler of COPY.
    pub copying: NoopHandler,
}

/// The handlers of a table of relations, whose rows are made on demand.
pub type RelationHandler<'r> = RelationHandlerOver<&'r RelationTable>;

impl<B: ServedRelations> ExtendedQueryHandler for RelationHandlerOver<B> {
    ghost use Rattle.relation_tables.specs.RelationHandler.{told_extended};

    type Statement = RelationStatement;

    type QueryParser = B::Parser;

    type Rows = B::Rows;

    type CopyRows = B::Lines;

    type Query = PolledQuery<RelationResponse<B>>;

    ghost told = { λ handler. told_extended (B.told handler.relations) };

    fn query_parser(&self, alloc: Global) -> Result<Arc<B::Parser>, AllocError> {
        self.relations.parser(alloc)
    }

    /// Parameters have the types that they were given, and `unknown` without one.
    fn do_describe_statement(
        &self,
        alloc: Global,
        _client: &ClientInfo,
        target: &StoredStatement<RelationStatement>,
    ) -> Result<DescribeStatementResponse, PgWireError> {
        let parameters = given_types(alloc, target.parameter_types.as_slice())?;
        let formats = Format::UnifiedText;
        let fields = fields_of(
            alloc,
            self.relations.table().named(),
            target.statement,
            &formats,
        )?;
        Ok(DescribeStatementResponse::new(parameters, fields))
    }

    fn do_describe_portal(
        &self,
        alloc: Global,
        _client: &ClientInfo,
        target: &Portal<RelationStatement, B::Rows>,
    ) -> Result<DescribePortalResponse, PgWireError> {
        let means = target.statement.statement;
        let fields = fields_of(
            alloc,
            self.relations.table().named(),
            means,
            &target.result_column_format,
        )?;
        Ok(DescribePortalResponse::new(fields))
    }

    fn do_query(
        &self,
        alloc: Global,
        client: &ClientInfo,
        portal: &Portal<RelationStatement, B::Rows>,
        _max_rows: i32,
    ) -> Result<PolledQuery<RelationResponse<B>>, AllocError> {
        let means = portal.statement.statement;
        let formats = &portal.result_column_format;
        let response = response_of(alloc, &self.relations, client, formats, means)?;
        Ok(PolledQuery::new(
            polls_of(self.relations.table().named(), means),
            Ok(response),
        ))
    }
}

impl<B: ServedRelations> SimpleQueryHandler for RelationHandlerOver<B> {
    ghost use Rattle.relation_tables.specs.RelationHandler.{told_simple};

    type Rows = B::Rows;

    type CopyRows = B::Lines;

    type Query = SimpleQuery<B>;

    ghost told = { λ handler. told_simple (B.told handler.relations) };

    /// A statement, whose rows are text, or `COPY name TO STDOUT`.
    fn do_query(
        &self,
        alloc: Global,
        client: &ClientInfo,
        query: &str,
    ) -> Result<SimpleQuery<B>, AllocError> {
        let text = trimmed(query);
        match find_trimmed_statement(self.relations.table().named(), text) {
            Some(means) => statement_query(alloc, &self.relations, client, means),
            None => other_query(alloc, &self.relations, client, text),
        }
    }
}

impl<B: ServedRelations> PgWireServerHandlers for RelationHandlerOver<B> {
    ghost use Rattle.relation_tables.specs.RelationHandler.{relation_handlers};

    type Simple = RelationHandlerOver<B>;

    type Extended = RelationHandlerOver<B>;

    type Copying = NoopHandler;

    ghost told = { λ handler. relation_handlers (B.told handler.relations) };

    fn simple_query_handler(&self) -> &RelationHandlerOver<B> {
        self
    }

    fn extended_query_handler(&self) -> &RelationHandlerOver<B> {
        self
    }

    fn copy_handler(&self) -> &NoopHandler {
        &self.copying
    }
}

/// The types of parameters as they were given, and `unknown` where they weren't. They are at most
/// as many as an Int16 counts, so they can be sent as a reply.
fn given_types(alloc: Global, types: &[Option<PgType>]) -> Result<PgList<PgType>, AllocError>
    requires { length types.now ≤ 32767 }
    ensures types { IfOk result (λ all. all ≡ given_types types.now) }
    ensures encodable { IfOk result (λ all. IsEncodable (parameter_description all)) }
{
    let mut all = PgList::new(alloc);
    for given in types {
        all.push(given.unwrap_or(PgType::Unknown))?;
    }
    Ok(all)
}
