//! Why a conversation is given up, and whether it goes on after a piece of the input.

ghost use Rattle.std.specs.Prelude.{◌≡◌};
ghost use Rattle.conversation_runs.specs.declared.ends.ServeError.TheVariants.{NoMemory};
ghost use Rattle.conversation_runs.specs.Streams.{told_of_sink};

use crate::streams::SinkError;
use pg_client::EndKind;
use std::alloc::AllocError;

/// Why a conversation was given up.
#[derive(Clone, Copy, Debug, PartialEq, Eq)]
pub enum ServeError {
    /// The source failed.
    ReadFault,
    /// The sink failed.
    WriteFault,
    /// All turns were spent, and one more was needed.
    TurnLimit,
    /// Memory ran out.
    NoMemory,
}

impl From<AllocError> for ServeError {
    ghost from_gives = { λ _ e. e ≡ NoMemory };

    fn from(_error: AllocError) -> ServeError {
        ServeError::NoMemory
    }
}

impl From<SinkError> for ServeError {
    ghost from_gives = { λ s e. e ≡ told_of_sink s };

    fn from(error: SinkError) -> ServeError {
        match error {
            SinkError::Failed => ServeError::WriteFault,
            SinkError::NoMemory => ServeError::NoMemory,
        }
    }
}

/// Whether a session goes on after a piece of the input.
#[derive(Clone, Copy, Debug, PartialEq, Eq)]
pub enum Progress {
    /// No whole frame is left.
    More,
    /// The conversation has ended.
    Ended(EndKind),
}
