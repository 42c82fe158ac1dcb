//! A service over handlers that implement nothing.

ghost use Rattle.std.specs.Prelude.{◌≡◌};

use client_listening::SharedService;
use client_services::{HandlerService, Service};
use pg_session::{
    CancelDesk, EndKind, NoopHandler, PgWireServerHandlers, ServeError, Sink, Source,
};
use std::alloc::{AllocError, Global};
use std::sync::Arc;

/// Handlers that implement nothing.
#[derive(Drop)]
pub(crate) struct Refusing {
    handler: NoopHandler,
}

impl PgWireServerHandlers for Refusing {
    ghost use Rattle.conversation_table.specs.Noop.{noop_extended, noop_simple, noop_copy};

    type Simple = NoopHandler;

    type Extended = NoopHandler;

    type Copying = NoopHandler;

    ghost told = { λ _. record {
      extended = noop_extended;
      simple = noop_simple;
      copying = noop_copy;
    } };

    fn simple_query_handler(&self) -> &NoopHandler {
        &self.handler
    }

    fn extended_query_handler(&self) -> &NoopHandler {
        &self.handler
    }

    fn copy_handler(&self) -> &NoopHandler {
        &self.handler
    }
}

/// These handlers, as what clients are served.
#[derive(Drop)]
pub(crate) struct RefusingService {
    handlers: HandlerService<Refusing>,
}

impl RefusingService {
    /// A service over handlers of its own. The only error is want of memory.
    pub(crate) fn new(alloc: Global) -> Result<RefusingService, AllocError> {
        let refusing = Refusing {
            handler: NoopHandler,
        };
        Ok(RefusingService {
            handlers: HandlerService {
                handlers: Arc::new(alloc, refusing)?,
            },
        })
    }
}

impl Service for RefusingService {
    ghost At = { ⟦<HandlerService<Refusing> as Service>⟧.At };

    ghost rules = { λ s. ⟦<HandlerService<Refusing> as Service>⟧.rules s.handlers };

    ghost begins = { λ s. ⟦<HandlerService<Refusing> as Service>⟧.begins s.handlers };

    ghost also = { λ s. ⟦<HandlerService<Refusing> as Service>⟧.also s.handlers };

    fn serve<D: CancelDesk, S: Source, K: Sink>(
        &self,
        alloc: Global,
        desk: &mut D,
        source: &mut S,
        sink: &mut K,
        turn_limit: u64,
    ) -> Result<EndKind, ServeError> {
        self.handlers.serve(alloc, desk, source, sink, turn_limit)
    }
}

impl SharedService for RefusingService {
    ghost Shared = { ⟦<HandlerService<Refusing> as SharedService>⟧.Shared };

    ghost shared = { λ s. ⟦<HandlerService<Refusing> as SharedService>⟧.shared s.handlers };

    fn share(&self) -> Result<RefusingService, AllocError> {
        Ok(RefusingService {
            handlers: self.handlers.share()?,
        })
    }
}
