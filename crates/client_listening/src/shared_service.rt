//! What clients that are served at once share of a service.

ghost use Rattle.std.specs.Prelude.{◌≡◌, IfOk};

use many_clients::{HandlerService, Service};
use pg_session::PgWireServerHandlers;
use std::alloc::AllocError;
use std::sync::Arc;

/// A service of which each client has a value of its own, over what all of them share.
pub trait SharedService: Service {
    // what its values share, as contracts see it
    ghost Shared: { Type 0 };
    // the same of this value
    ghost shared: { Self → Shared };

    /// The same service, for one more client. The only error is want of memory.
    fn share(&self) -> Result<Self, AllocError>
    where
        Self: Sized,
        ensures { IfOk result (λ other. shared other ≡ shared self.now) };
}

impl<H: PgWireServerHandlers> SharedService for HandlerService<H> {
    ghost use Rattle.std.specs.Arc.{arc_value};

    ghost Shared = { H };

    ghost shared = { λ s. arc_value s.handlers };

    fn share(&self) -> Result<HandlerService<H>, AllocError> {
        Ok(HandlerService {
            handlers: Arc::try_clone(&self.handlers)?,
        })
    }
}
