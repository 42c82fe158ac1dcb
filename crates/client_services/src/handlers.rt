//! Handlers as what clients are served.

use crate::service::Service;
use pg_engine::serve_connection;
use pg_portal::MemPortalStore;
use pg_session::{CancelDesk, EndKind, PgWireServerHandlers, ServeError, Sink, Source};
use std::alloc::Global;
use std::sync::Arc;

/// Handlers that clients share. Each client has a session over them, which begins with no statement
/// and no portal, and keeps its own in memory.
#[derive(Drop)]
pub struct HandlerService<H> {
    /// The handlers.
    pub handlers: Arc<H>,
}

impl<H: PgWireServerHandlers> Service for HandlerService<H> {
    ghost use Rattle.std.specs.Prelude.{ℕ, ◌≡◌};
    ghost use Rattle.std.specs.Arc.{arc_value};
    ghost use Rattle.pg_client.specs.State.{State, first_state};
    ghost use Rattle.conversation_runs.specs.Session.{whole_rules};
    ghost use Rattle.pg_engine.specs.Completeness.{IsCompleteWithin, OweAtMost};

    ghost At = { State H.Extended.Statement };

    ghost rules = { λ s. whole_rules (H.told (arc_value s.handlers)) };

    ghost begins = { λ s pid key at. at ≡ first_state pid key };

    // with turns enough for the polls that a query owes at most, the client is served to the end
    ghost also = { λ s first turns answer left new_left calls before after.
        (most : ℕ) → OweAtMost (H.told (arc_value s.handlers)) most
        → IsCompleteWithin most turns answer left before after };

    fn serve<D: CancelDesk, S: Source, K: Sink>(
        &self,
        alloc: Global,
        desk: &mut D,
        source: &mut S,
        sink: &mut K,
        turn_limit: u64,
    ) -> Result<EndKind, ServeError> {
        let Ok(handlers) = self.handlers.clone() else {
            return Err(ServeError::NoMemory);
        };
        let store = MemPortalStore::new(alloc);
        serve_connection(alloc, handlers, store, desk, source, sink, turn_limit)
    }
}
