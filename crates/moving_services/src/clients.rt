//! What clients with handlers that change share.

ghost use Rattle.std.specs.Prelude.{◌≡◌, IfOk};

use moving_session::MovingHandlers;
use std::alloc::{AllocError, Global};

/// What clients with handlers that change share. Each client who comes is given handlers of its own,
/// and clients that are served at once have a value each, over what they share.
pub trait MovingClients: Drop {
    /// The handlers of one client.
    type Handlers: MovingHandlers;

    // the handlers that a client who comes may be given
    ghost gives: { Self → Self.Handlers → Type 0 };
    // what its values share, as contracts see it
    ghost Shared: { Type 0 };
    // the same of this value
    ghost shared: { Self → Shared };

    /// The handlers of a client who comes. The only error is running out of memory.
    fn handlers(&self, alloc: Global) -> Result<Self::Handlers, AllocError>
        ensures { IfOk result (gives self.now) };

    /// The same, for one more client. The only error is running out of memory.
    fn share(&self) -> Result<Self, AllocError>
    where
        Self: Sized,
        ensures { IfOk result (λ other. shared other ≡ shared self.now) };
}
