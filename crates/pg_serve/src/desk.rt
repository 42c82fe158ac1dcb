//! The desk of a connection: its handle on the shared registry.

ghost use Rattle.std.specs.Prelude.{◌≡◌};

use pg_cancel::{ConnectionHandle, ConnectionManager};
use pg_messages::SecretKey;
use pg_session::CancelDesk;
use std::alloc::AllocError;
use std::sync::Wait;

/// A desk over a connection's handle. Its calls are the handle's own, which wait for the registry's
/// turn.
pub struct HandleDesk<'a, R: Wait> {
    /// The runtime, which lets calls wait.
    pub runtime: &'a R,
    /// The registry.
    pub manager: &'a ConnectionManager,
    /// The connection.
    pub handle: &'a mut ConnectionHandle,
    ghost issued: { handle.now.issuer ≡ manager.now },
}

impl<'a, R: Wait> CancelDesk for HandleDesk<'a, R> {
    ghost use Rattle.pg_serve.specs.Desk.{desk_over};

    ghost told = { λ d. desk_over d.handle.ghost_name d.handle.now };

    fn identity(&self) -> (i32, &SecretKey) {
        (self.handle.pid(), self.handle.key())
    }

    fn start(&mut self) -> Result<(), AllocError> {
        self.manager.start_query(self.runtime, self.handle)
    }

    fn ask(&mut self) -> Result<bool, AllocError> {
        self.manager.ask(self.runtime, self.handle)
    }

    fn cancel(&mut self, pid: i32, key: &SecretKey) -> Result<bool, AllocError> {
        self.manager.cancel(self.runtime, self.handle, pid, key)
    }

    fn narrow(&mut self) -> Result<(), AllocError> {
        self.manager.narrow(self.runtime, self.handle)
    }
}
