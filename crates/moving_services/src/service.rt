//! Handlers that change, as what clients are served.

ghost use Rattle.std.specs.Prelude.{◌≡◌};

use crate::clients::MovingClients;
use client_listening::SharedService;
use client_services::Service;
use moving_serving::serve_moving;
use pg_portal::MemPortalStore;
use pg_session::{CancelDesk, EndKind, ServeError, Sink, Source};
use std::alloc::{AllocError, Global};

/// Handlers that change, as what clients are served. Each client has handlers of its own, and a
/// session over them, which begins with no statement and no portal.
#[derive(Drop)]
pub struct MovingService<C> {
    /// What the clients share.
    pub clients: C,
}

impl<C: MovingClients> Service for MovingService<C> {
    ghost use Rattle.std.specs.Prelude.{◌≡◌};
    ghost use Rattle.pg_client.specs.State.{first_state};
    ghost use Rattle.moving_runs.specs.Sheets.{Ahead, sheet_rules};
    ghost use Rattle.moving_services.specs.Met.{FindsWorld, WasMet};

    ghost At = { Ahead C.Handlers.Sheet.Extended.Statement };

    ghost rules = { λ s. sheet_rules };

    // whatever the sheets to come
    ghost begins = { λ s pid key first. first.state ≡ first_state pid key };

    // the sheets are those of the client's messages, each of which was met in turn
    ghost also = { λ s first turns answer left new_left calls before after.
        WasMet C.Handlers.meets (FindsWorld C.Handlers.world (C.gives s.clients)) first left new_left calls };

    fn serve<D: CancelDesk, S: Source, K: Sink>(
        &self,
        alloc: Global,
        desk: &mut D,
        source: &mut S,
        sink: &mut K,
        turn_limit: u64,
    ) -> Result<EndKind, ServeError> {
        let Ok(handlers) = self.clients.handlers(alloc) else {
            return Err(ServeError::NoMemory);
        };
        let store = MemPortalStore::new(alloc);
        serve_moving(alloc, handlers, store, desk, source, sink, turn_limit)
    }
}

impl<C: MovingClients> SharedService for MovingService<C> {
    ghost Shared = { C.Shared };

    ghost shared = { λ s. C.shared s.clients };

    fn share(&self) -> Result<MovingService<C>, AllocError> {
        Ok(MovingService {
            clients: self.clients.share()?,
        })
    }
}
