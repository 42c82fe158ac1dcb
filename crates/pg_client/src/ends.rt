//! How conversations end, and the turns that they have.

ghost use Rattle.std.specs.Prelude.{◌≡◌, ◌+◌, ◌<◌, ◌↔◌, IsTrue};
ghost use Rattle.std.specs.Bool.{OnTrue, OnFalse};

use pg_portal::PgWireError;
use std::alloc::AllocError;

/// How a conversation ended.
#[derive(Clone, Copy, Debug, PartialEq, Eq)]
pub enum EndKind {
    /// The client sent Terminate.
    Terminate,
    /// The input ended where no whole frame was left.
    InputEnd,
    /// The next bytes are a bad header or a bad frame.
    BadFrame,
    /// The client was told an error of severity FATAL.
    Fatal,
    /// The client asked to cancel another session's query, and the registry was called.
    CancelServed,
}

/// Why a message isn't carried out.
#[derive(Drop)]
pub enum SessionError {
    /// An error that the client is told, or `NoMemory`.
    Wire(PgWireError),
    /// All turns were spent, and a query needed one more.
    TurnLimit,
}

impl From<PgWireError> for SessionError {
    ghost use Rattle.std.specs.Prelude.{◌≡◌};
    ghost use Rattle.pg_client.specs.declared.ends.SessionError.{SessionError};

    ghost from_gives = { λ wire error. error ≡ SessionError.Wire wire };

    fn from(error: PgWireError) -> SessionError {
        SessionError::Wire(error)
    }
}

impl From<AllocError> for SessionError {
    ghost use Rattle.std.specs.Prelude.{◌≡◌};
    ghost use Rattle.pg_results.specs.declared.error.PgWireError.{PgWireError};
    ghost use Rattle.pg_client.specs.declared.ends.SessionError.{SessionError};

    ghost from_gives = { λ _ error. error ≡ SessionError.Wire PgWireError.NoMemory };

    fn from(_error: AllocError) -> SessionError {
        SessionError::Wire(PgWireError::NoMemory)
    }
}

/// The turns of a session: those that are spent, and how many there are. A turn is a read that gave
/// at least one byte or the end, or a poll that found a query unready.
#[derive(Clone, Copy, Debug, PartialEq, Eq)]
pub struct Turns {
    /// How many are spent.
    pub spent: u64,
    /// How many there are.
    pub limit: u64,
}

impl Turns {
    /// Spends one turn, and returns false exactly where none is left.
    pub fn spend(&mut self) -> bool
        ensures left { IsTrue result ↔ (self.old.spent < self.old.limit) }
        ensures spent { OnTrue result (self.new.spent ≡ self.old.spent + 1) }
        ensures kept { OnFalse result (self.new.spent ≡ self.old.spent) }
        ensures limit { self.new.limit ≡ self.old.limit }
    {
        if self.spent < self.limit {
            self.spent += 1;
            true
        } else {
            false
        }
    }
}
