//! A query whose polls wait.

ghost use Rattle.std.specs.Prelude.{◌≡◌};

use pg_handlers::{PolledQuery, QueryState, Turn};
use pg_portal::PgWireError;
use std::alloc::AllocError;
use std::time::{Clock, Duration};

/// A query of which each poll that finds it unready takes a millisecond or a little more.
#[derive(Drop)]
pub struct Waiting<T, C> {
    clock: C,
    query: PolledQuery<T>,
}

impl<T: Drop, C: Clock + Drop> Waiting<T, C> {
    /// The query that waits by this clock between polls of another one.
    pub fn new(clock: C, query: PolledQuery<T>) -> Waiting<T, C>
        ensures { result.query ≡ query }
    {
        Waiting { clock, query }
    }
}

impl<T: Drop, C: Clock + Drop> QueryState for Waiting<T, C> {
    ghost use Rattle.pg_handlers.specs.PolledQueries.{query_told};

    type Out = Result<T, PgWireError>;

    ghost told = { λ w. query_told w.query.unready w.query.outcome };

    fn poll(&mut self) -> Result<Turn<Result<T, PgWireError>>, AllocError> {
        match self.query.poll()? {
            Turn::Unready => {
                self.clock.sleep(Duration::from_millis(1));
                Ok(Turn::Unready)
            }
            ready => Ok(ready),
        }
    }
}
