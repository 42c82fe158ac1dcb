//! How messages end, as the session sees it.

ghost use Rattle.std.specs.Prelude.{◌≡◌, Err};
ghost use Rattle.pg_results.specs.declared.error.PgWireError.TheVariants as wire;
ghost use Rattle.pg_client.specs.declared.ends.SessionError.TheVariants as session;
ghost use Rattle.conversation_table.specs.Outcomes.{session_outcome};

use pg_client::SessionError;
use pg_portal::PgWireError;

/// The outcome of a message, as one of a session.
#[inline(always)]
pub(crate) fn session_outcome(outcome: Result<(), PgWireError>) -> Result<(), SessionError>
    ensures { result ≡ session_outcome outcome }
{
    match outcome {
        Ok(()) => Ok(()),
        Err(error) => Err(SessionError::Wire(error)),
    }
}

/// Memory ran out at a message: what is left of it is dropped.
#[cold]
#[inline(never)]
pub(crate) fn out_of_memory<T: Drop>(_left: T) -> Result<(), PgWireError>
    ensures { result ≡ Err wire.NoMemory }
{
    Err(PgWireError::NoMemory)
}

/// Memory ran out at a query: what is left of it is dropped.
#[cold]
#[inline(never)]
pub(crate) fn query_out_of_memory<T: Drop>(_left: T) -> Result<(), SessionError>
    ensures { result ≡ Err (session.Wire wire.NoMemory) }
{
    Err(SessionError::Wire(PgWireError::NoMemory))
}
