//! Clients that share a world, as what a program serves.

ghost use Rattle.pg_client.specs.State.{first_state};
ghost use Rattle.pg_engine.specs.Around.{around};
ghost use Rattle.moving_serving.specs.Serving.{ServesMet};

use crate::clients::SharedClients;
use client_listening::SharedService;
use client_services::Service;
use moving_services::MovingClients;
use moving_serving::serve_moving;
use moving_session::MovingHandlers;
use pg_portal::MemPortalStore;
use pg_session::{CancelDesk, EndKind, ServeError, Sink, Source};
use shared_history::Naming;
use shared_worlds::SharedWorld;
use std::alloc::{AllocError, Global};
use std::sync::Wait;

/// Serves a client by handlers that change, over a store of its own, as `serve_moving` does.
fn serve_by<M: MovingHandlers, D: CancelDesk, S: Source, K: Sink>(
    alloc: Global,
    handlers: M,
    desk: &mut D,
    source: &mut S,
    sink: &mut K,
    turn_limit: u64,
) -> Result<EndKind, ServeError>
    ensures { let round = around S.left S.reads S.faults S.origin K.written K.faults K.origin D.told in
        (last : M.World) × ServesMet M.meets (M.world handlers) last
        (first_state (D.told desk.old).registration.0 (D.told desk.old).registration.1)
        turn_limit result (round source.old sink.old desk.old)
        (round source.new sink.new desk.new) }
{
    let store = MemPortalStore::new(alloc);
    serve_moving(alloc, handlers, store, desk, source, sink, turn_limit)
}

/// Clients that share a world, as what a program serves.
#[derive(Drop)]
pub struct WorldService<R: Wait + Drop, J: Naming, W: SharedWorld> {
    clients: SharedClients<R, J, W>,
}

impl<R: Wait + Copy + Drop, J: Naming, W: SharedWorld> WorldService<R, J, W> {
    /// The service of these clients.
    pub fn over(clients: SharedClients<R, J, W>) -> WorldService<R, J, W> {
        WorldService { clients }
    }
}

impl<R: Wait + Copy + Drop, J: Naming, W: SharedWorld> Service for WorldService<R, J, W> {
    ghost use Rattle.std.specs.Prelude.{◌≡◌};
    ghost use Rattle.pg_client.specs.State.{first_state};
    ghost use Rattle.moving_runs.specs.Sheets.{Ahead, sheet_rules};
    ghost use Rattle.moving_services.specs.Met.{FindsWorld, WasMet};
    ghost use Rattle.shared_services.specs.Newcomers.{IsNewcomer};
    ghost use Rattle.shared_worlds.specs.Sharing.{MeetsShared};

    ghost At = { Ahead W.Sheet.Extended.Statement };

    ghost rules = { λ s. sheet_rules };

    // whatever the sheets to come
    ghost begins = { λ s pid key first. first.state ≡ first_state pid key };

    // the sheets are those of the client's messages, each of which was met in turn
    ghost also = { λ s first turns answer left new_left calls before after.
        WasMet (MeetsShared W.told) (FindsWorld (λ handlers. handlers) (IsNewcomer W.told)) first left new_left calls };

    fn serve<D: CancelDesk, S: Source, K: Sink>(
        &self,
        alloc: Global,
        desk: &mut D,
        source: &mut S,
        sink: &mut K,
        turn_limit: u64,
    ) -> Result<EndKind, ServeError> {
        let Ok(handlers) = self.clients.handlers(alloc) else {
            return Err(ServeError::NoMemory);
        };
        serve_by(alloc, handlers, desk, source, sink, turn_limit)
    }
}

impl<R: Wait + Copy + Drop, J: Naming, W: SharedWorld> SharedService for WorldService<R, J, W> {
    // which world it is, the type says
    ghost Shared = { Unit {0} };

    ghost shared = { λ s. tt };

    fn share(&self) -> Result<WorldService<R, J, W>, AllocError> {
        Ok(WorldService {
            clients: self.clients.share()?,
        })
    }
}
