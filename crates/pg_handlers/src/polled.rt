//! Queries that owe polls before they give their outcome.

ghost use Rattle.std.specs.Prelude.{◌≡◌, Some};

use crate::query::{QueryState, Turn};
use pg_portal::PgWireError;
use std::alloc::AllocError;

/// A query that is unready for a number of polls, and then gives its outcome once. Any poll after
/// that is an AllocError.
#[derive(Drop)]
pub struct PolledQuery<T> {
    unready: u32,
    outcome: Option<Result<T, PgWireError>>,
}

impl<T: Drop> PolledQuery<T> {
    /// A query with this outcome, which is unready for `unready` polls first.
    pub fn new(unready: u32, outcome: Result<T, PgWireError>) -> PolledQuery<T>
        ensures unready { result.unready ≡ unready }
        ensures outcome { result.outcome ≡ Some outcome }
    {
        PolledQuery {
            unready,
            outcome: Some(outcome),
        }
    }
}

impl<T: Drop> QueryState for PolledQuery<T> {
    ghost use Rattle.pg_handlers.specs.PolledQueries.{query_told};

    type Out = Result<T, PgWireError>;

    ghost told = { λ q. query_told q.unready q.outcome };

    fn poll(&mut self) -> Result<Turn<Result<T, PgWireError>>, AllocError> {
        if self.unready > 0 {
            self.unready -= 1;
            return Ok(Turn::Unready);
        }
        match self.outcome.take() {
            Some(outcome) => Ok(Turn::Ready(outcome)),
            None => Err(AllocError),
        }
    }
}
