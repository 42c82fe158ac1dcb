//! Clients that share a world.

ghost use Rattle.std.specs.Prelude.{◌≡◌};

use moving_services::MovingClients;
use shared_history::{Naming, Opened};
use shared_worlds::{Course, SharedHandlers, SharedWorld};
use std::alloc::{AllocError, Global};
use std::sync::Wait;

/// Clients that share a world. Each who comes is given handlers that have seen all that was changed so
/// far, and has nothing of its own yet. Which world it is, its name `J` says: handlers of one name have
/// seen parts of one history.
#[derive(Drop)]
pub struct SharedClients<R: Wait + Drop, J: Naming, W: SharedWorld> {
    rt: R,
    alloc: Global,
    first: SharedHandlers<R, J, W>,
}

impl<R: Wait + Copy + Drop, J: Naming, W: SharedWorld> SharedClients<R, J, W> {
    /// A world where it begins, and nobody who comes to it yet. Handlers wait for its lock by `rt`. The
    /// only error is running out of memory.
    pub fn new(
        rt: R,
        alloc: Global,
        opened: Opened<Course<W>>,
    ) -> Result<SharedClients<R, J, W>, AllocError>
        requires { opened ≡ J.table }
    {
        let first = SharedHandlers::new(rt, alloc, opened)?;
        Ok(SharedClients { rt, alloc, first })
    }
}

impl<R: Wait + Copy + Drop, J: Naming, W: SharedWorld> MovingClients for SharedClients<R, J, W> {
    ghost use Rattle.shared_services.specs.Newcomers.{IsNewcomer};

    type Handlers = SharedHandlers<R, J, W>;

    ghost gives = { λ _ handlers. IsNewcomer W.told handlers };

    // which world it is, the type says
    ghost Shared = { Unit {0} };

    ghost shared = { λ _. tt };

    fn handlers(&self, alloc: Global) -> Result<SharedHandlers<R, J, W>, AllocError> {
        self.first.share(self.rt, alloc)
    }

    fn share(&self) -> Result<SharedClients<R, J, W>, AllocError> {
        Ok(SharedClients {
            rt: self.rt,
            alloc: self.alloc,
            first: self.first.share(self.rt, self.alloc)?,
        })
    }
}
