//! Relations that are lent, as what a client is served.

use client_services::Service;
use conversation_runs::{ServeError, Sink, Source};
use pg_client::{CancelDesk, EndKind};
use relation_handlers::RelationTable;
use relation_serving::serve_relations_on;
use std::alloc::Global;

/// Relations that are lent. A client is served over them by [`serve_relations_on`].
#[derive(Drop)]
pub struct LentRelations<'r> {
    /// The relations.
    pub relations: &'r RelationTable,
}

impl Service for LentRelations<'_> {
    ghost use Rattle.std.specs.Prelude.{◌≡◌};
    ghost use Rattle.pg_client.specs.State.{State, first_state};
    ghost use Rattle.conversation_runs.specs.Session.{whole_rules};
    ghost use Rattle.relation_serving.specs.Completeness.{IsComplete};
    ghost use Rattle.relation_tables.specs.RelationHandler.{relation_handlers};
    ghost use Rattle.relation_tables.specs.declared.RelationStatement.{RelationStatement};

    ghost At = { State RelationStatement };

    ghost rules = { λ s. whole_rules (relation_handlers s.relations.now) };

    ghost begins = { λ s pid key at. at ≡ first_state pid key };

    ghost also = { λ s first turns answer left new_left calls before after.
        IsComplete s.relations.now turns answer left before after };

    fn serve<D: CancelDesk, S: Source, K: Sink>(
        &self,
        alloc: Global,
        desk: &mut D,
        source: &mut S,
        sink: &mut K,
        turn_limit: u64,
    ) -> Result<EndKind, ServeError> {
        serve_relations_on(alloc, desk, self.relations, source, sink, turn_limit)
    }
}
