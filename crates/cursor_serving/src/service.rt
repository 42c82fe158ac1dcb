//! Relations as what clients are served, with cursors.

use crate::serve::serve_cursors_on;
use client_listening::SharedService;
use client_services::Service;
use pg_session::{CancelDesk, EndKind, ServeError, Sink, Source};
use relation_handlers::RelationTable;
use std::alloc::{AllocError, Global};
use std::sync::Arc;

/// Relations that clients share. Each client is served with cursors, as [`serve_cursors_on`] does.
#[derive(Drop)]
pub struct CursorService {
    /// The relations.
    pub relations: Arc<RelationTable>,
}

impl Service for CursorService {
    ghost use Rattle.std.specs.Prelude.{◌≡◌};
    ghost use Rattle.std.specs.Arc.{arc_value};
    ghost use Rattle.pg_client.specs.State.{State, first_state};
    ghost use Rattle.cursor_table.specs.CursorTable.{cursor_rules};
    ghost use Rattle.relation_serving.specs.Completeness.{IsComplete};
    ghost use Rattle.relation_tables.specs.declared.RelationStatement.{RelationStatement};
    ghost use Rattle.relation_tables.specs.RelationHandler.{relation_handlers};

    ghost At = { State RelationStatement };

    ghost rules = { λ s. cursor_rules (relation_handlers (arc_value s.relations)) };

    ghost begins = { λ s pid key at. at ≡ first_state pid key };

    ghost also = { λ s first turns answer left new_left calls before after.
        IsComplete (arc_value s.relations) turns answer left before after };

    fn serve<D: CancelDesk, S: Source, K: Sink>(
        &self,
        alloc: Global,
        desk: &mut D,
        source: &mut S,
        sink: &mut K,
        turn_limit: u64,
    ) -> Result<EndKind, ServeError> {
        serve_cursors_on(alloc, desk, &self.relations, source, sink, turn_limit)
    }
}

impl SharedService for CursorService {
    ghost use Rattle.std.specs.Prelude.{List};
    ghost use Rattle.std.specs.Arc.{arc_value};
    ghost use Rattle.relation_tables.specs.declared.Relation.{Relation};

    ghost Shared = { List Relation };

    ghost shared = { λ s. arc_value s.relations };

    fn share(&self) -> Result<CursorService, AllocError> {
        Ok(CursorService {
            relations: Arc::try_clone(&self.relations)?,
        })
    }
}
