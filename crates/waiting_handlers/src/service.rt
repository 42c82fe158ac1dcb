//! Handlers that wait, as what clients are served.

ghost use Rattle.std.specs.Prelude.{◌≡◌};

use crate::handlers::WaitingHandlers;
use client_listening::SharedService;
use client_services::{HandlerService, Service};
use pg_session::{CancelDesk, EndKind, ServeError, Sink, Source};
use std::alloc::{AllocError, Global};
use std::time::Clock;

/// Handlers that wait, as what clients are served. It is a service of their own, since a server of
/// threads can't be proved over handlers whose statements are of a type without a parameter.
#[derive(Drop)]
pub struct WaitingService<C> {
    /// The handlers.
    pub handlers: HandlerService<WaitingHandlers<C>>,
}

impl<C: Clock + Copy + Drop> Service for WaitingService<C> {
    ghost At = { ⟦<HandlerService<WaitingHandlers<C>> as Service>⟧.At };

    ghost rules = { λ s. ⟦<HandlerService<WaitingHandlers<C>> as Service>⟧.rules s.handlers };

    ghost begins = { λ s. ⟦<HandlerService<WaitingHandlers<C>> as Service>⟧.begins s.handlers };

    ghost also = { λ s. ⟦<HandlerService<WaitingHandlers<C>> as Service>⟧.also s.handlers };

    fn serve<D: CancelDesk, S: Source, K: Sink>(
        &self,
        alloc: Global,
        desk: &mut D,
        source: &mut S,
        sink: &mut K,
        turn_limit: u64,
    ) -> Result<EndKind, ServeError> {
        self.handlers.serve(alloc, desk, source, sink, turn_limit)
    }
}

impl<C: Clock + Copy + Drop> SharedService for WaitingService<C> {
    ghost Shared = { ⟦<HandlerService<WaitingHandlers<C>> as SharedService>⟧.Shared };

    ghost shared = { λ s. ⟦<HandlerService<WaitingHandlers<C>> as SharedService>⟧.shared s.handlers };

    fn share(&self) -> Result<WaitingService<C>, AllocError> {
        Ok(WaitingService {
            handlers: self.handlers.share()?,
        })
    }
}
