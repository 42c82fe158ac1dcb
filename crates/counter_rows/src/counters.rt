//! Counters of clients.

ghost use Rattle.std.specs.Prelude.{◌≡◌, IfOk};

use counter::Counter;
use moving_services::MovingClients;
use std::alloc::{AllocError, Global};

/// Clients of whom each has a counter of its own, which begins at this number.
#[derive(Drop)]
pub struct Counters {
    /// The number.
    pub first: u64,
}

impl MovingClients for Counters {
    ghost use Rattle.std.specs.Prelude.{ℕ, ◌≡◌};

    type Handlers = Counter;

    ghost gives = { λ s counter. counter.number ≡ s.first };

    ghost Shared = { ℕ };

    ghost shared = { λ s. s.first };

    fn handlers(&self, _alloc: Global) -> Result<Counter, AllocError> {
        Ok(Counter { number: self.first })
    }

    fn share(&self) -> Result<Counters, AllocError> {
        Ok(Counters { first: self.first })
    }
}
