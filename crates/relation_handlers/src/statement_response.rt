//! The responses to statements of relations.

ghost use Rattle.std.specs.Prelude.{◌≡◌, Ok, IfOk, IsTrue, length};
ghost use Rattle.pg_results.specs.Clients.{HasShortMetadata};
ghost use Rattle.pg_results.specs.Responses.{told_response};
ghost use Rattle.conversation_table.specs.Good.{IsSendableOutcome};
ghost use Rattle.relation_tables.specs.Relations.{columns_of};
ghost use Rattle.relation_tables.specs.RelationHandler.{is_statement_of, query_of};
ghost use Rattle.relation_handlers.specs.Made.{GivesFormats};
ghost use Rattle.relation_handlers.specs.Queries.{polls_of};

use crate::named_relations::NamedRelations;
use crate::query::RelationResponse;
use crate::served::ServedRelations;
use pg_portal::{ClientInfo, Format, Response, Tag};
use relation_tables::RelationStatement;
use std::alloc::{AllocError, Global};

/// The polls that find a statement's query unready. BEGIN and COMMIT owe none.
pub(crate) fn polls_of(relations: &NamedRelations, means: RelationStatement) -> u32
    requires { IsTrue (is_statement_of relations.now means) }
    ensures { result ≡ polls_of relations.now means }
{
    match means {
        RelationStatement::Begin => 0,
        RelationStatement::Commit => 0,
        RelationStatement::Relation(place) => relations.at(place).unready,
    }
}

/// The response to a statement, with its rows in these formats.
#[inline(always)]
pub(crate) fn response_of<B: ServedRelations>(
    alloc: Global,
    served: &B,
    client: &ClientInfo,
    formats: &Format,
    means: RelationStatement,
) -> Result<RelationResponse<B>, AllocError>
    requires given { IsTrue (is_statement_of (B.told served.now) means) }
    requires formats { GivesFormats formats.now (length (columns_of (B.told served.now) means)) }
    requires short_metadata { HasShortMetadata client.now }
    ensures told { IfOk result (λ response. Ok (told_response B.Rows.items B.Lines.items response)
        ≡ (query_of (B.told served.now) client.now formats.now means).outcome) }
    ensures sendable { IfOk result (λ response.
        IsSendableOutcome (query_of (B.told served.now) client.now formats.now means).outcome) }
{
    match means {
        RelationStatement::Begin => Ok(Response::TransactionStart(Tag::new(alloc, "BEGIN")?)),
        RelationStatement::Commit => Ok(Response::TransactionEnd(Tag::new(alloc, "COMMIT")?)),
        RelationStatement::Relation(place) => {
            Ok(Response::Query(served.rows(alloc, client, formats, place)?))
        }
    }
}
