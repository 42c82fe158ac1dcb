//! Responses of relations, and the queries that give them.

use crate::served::ServedRelations;
use pg_handlers::PolledQuery;
use pg_messages::PgList;
use pg_portal::Response;

/// A response of relations.
pub(crate) type RelationResponse<B> = Response<
    <B as ServedRelations>::Rows,
    <B as ServedRelations>::Lines,
>;

/// A simple query of relations.
pub(crate) type SimpleQuery<B> = PolledQuery<PgList<RelationResponse<B>>>;
