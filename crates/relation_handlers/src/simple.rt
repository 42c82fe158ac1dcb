//! Simple queries of relations.

ghost use Rattle.std.specs.Prelude.{◌≡◌, ◌<◌, [], ◌∷◌, false, Ok, Some, IfOk, IsTrue, length};
ghost use Rattle.pg_handlers.specs.PolledQueries.{is_given, query_told};
ghost use Rattle.pg_results.specs.Clients.{HasShortMetadata};
ghost use Rattle.pg_results.specs.Responses.{told_response, told_responses};
ghost use Rattle.pg_results.specs.Texts.{IsShortText};
ghost use Rattle.conversation_table.specs.Good.{AreSendable};
ghost use Rattle.conversation_table.specs.Handlers.{told_all, told_query};
ghost use Rattle.relation_tables.specs.Queries.{words, copied_name};
ghost use Rattle.relation_tables.specs.RelationHandler.{copy_of, copy_or_unknown, copy_response, is_statement_of, refused_query, simple_of};
ghost use Rattle.relation_tables.specs.Relations.{place_of, relation_at};

use crate::errors::unknown_relation;
use crate::query::{RelationResponse, SimpleQuery};
use crate::served::ServedRelations;
use crate::statement_response::{polls_of, response_of};
use crate::words::copied_name;
use pg_handlers::PolledQuery;
use pg_messages::PgList;
use pg_portal::{ClientInfo, CopySource, Format, PgWireError, Response, RowSource};
use relation_tables::RelationStatement;
use std::alloc::{AllocError, Global};

/// The query of a statement, whose rows are text.
pub(crate) fn statement_query<B: ServedRelations>(
    alloc: Global,
    served: &B,
    client: &ClientInfo,
    means: RelationStatement,
) -> Result<SimpleQuery<B>, AllocError>
    requires given { IsTrue (is_statement_of (B.told served.now) means) }
    requires short_metadata { HasShortMetadata client.now }
    ensures unspent { IfOk result (λ query. is_given query.outcome ≡ false) }
    ensures told { IfOk result (λ query.
        told_query (told_all B.Rows.items B.Lines.items) (query_told query.unready query.outcome)
        ≡ simple_of (B.told served.now) client.now [] (Some means)) }
    ensures sendable { IfOk result (λ query.
        AreSendable (simple_of (B.told served.now) client.now [] (Some means)).outcome) }
{
    let response = response_of(alloc, served, client, &Format::UnifiedText, means)?;
    let responses = alone(alloc, response)?;
    Ok(PolledQuery::new(polls_of(served.table().named(), means), Ok(responses)))
}

/// A list of one item.
fn alone<T: Drop>(alloc: Global, item: T) -> Result<PgList<T>, AllocError>
    ensures { IfOk result (λ items. items ≡ item ∷ []) }
{
    let mut items = Vec::with_capacity(alloc, 1)?;
    items.push(item)?;
    Ok(PgList::from_vec(items))
}

/// The query of a trimmed text that is no statement: a COPY of a relation, or the error 42P01 with
/// the text, or with the name that was to be copied.
pub(crate) fn other_query<B: ServedRelations>(
    alloc: Global,
    served: &B,
    client: &ClientInfo,
    text: &str,
) -> Result<SimpleQuery<B>, AllocError>
    requires short_metadata { HasShortMetadata client.now }
    requires short_text { IsShortText text.now }
    ensures unspent { IfOk result (λ query. is_given query.outcome ≡ false) }
    ensures told { IfOk result (λ query.
        told_query (told_all B.Rows.items B.Lines.items) (query_told query.unready query.outcome)
        ≡ copy_or_unknown (B.told served.now) client.now text.now (copied_name (words text.now))) }
    ensures sendable { IfOk result (λ query.
        AreSendable (copy_or_unknown (B.told served.now) client.now text.now
        (copied_name (words text.now))).outcome) }
{
    match copied_name(text) {
        Some(name) => copy_query(alloc, served, client, name),
        None => refused_query(alloc, text),
    }
}

/// The query of a COPY of the relation of this name, or the error 42P01 with the name.
fn copy_query<B: ServedRelations>(
    alloc: Global,
    served: &B,
    client: &ClientInfo,
    name: &str,
) -> Result<SimpleQuery<B>, AllocError>
    requires short_metadata { HasShortMetadata client.now }
    requires short_name { IsShortText name.now }
    ensures unspent { IfOk result (λ query. is_given query.outcome ≡ false) }
    ensures told { IfOk result (λ query.
        told_query (told_all B.Rows.items B.Lines.items) (query_told query.unready query.outcome)
        ≡ copy_of (B.told served.now) client.now name.now (place_of (B.told served.now) name.now)) }
    ensures sendable { IfOk result (λ query.
        AreSendable (copy_of (B.told served.now) client.now name.now
        (place_of (B.told served.now) name.now)).outcome) }
{
    let relations = served.table().named();
    match relations.find(name) {
        Some(place) => {
            let responses = copy_responses(alloc, served, place, client)?;
            Ok(PolledQuery::new(relations.at(place).unready, Ok(responses)))
        }
        None => refused_query(alloc, name),
    }
}

/// The response to a COPY of the relation at a place, in a list: its lines as text.
fn copy_responses<B: ServedRelations>(
    alloc: Global,
    served: &B,
    place: u32,
    client: &ClientInfo,
) -> Result<PgList<RelationResponse<B>>, AllocError>
    requires place { place < length (B.told served.now) }
    requires short_metadata { HasShortMetadata client.now }
    ensures { IfOk result (λ responses. told_responses B.Rows.items B.Lines.items responses
        ≡ copy_response client.now (relation_at (B.told served.now) place) ∷ []) }
{
    let lines = served.lines(alloc, client, place)?;
    alone(alloc, Response::CopyOut(lines))
}

/// A query that is refused with the error 42P01 for this text.
fn refused_query<R: RowSource, C: CopySource>(
    alloc: Global,
    text: &str,
) -> Result<PolledQuery<PgList<Response<R, C>>>, AllocError>
    requires { IsShortText text.now }
    ensures unspent { IfOk result (λ query. is_given query.outcome ≡ false) }
    ensures told { IfOk result (λ query.
        told_query (told_all R.items C.items) (query_told query.unready query.outcome)
        ≡ refused_query text.now) }
    ensures sendable { IfOk result (λ query. AreSendable (refused_query text.now).outcome) }
{
    let info = unknown_relation(alloc, text)?;
    Ok(PolledQuery::new(0, Err(PgWireError::UserError(info))))
}
