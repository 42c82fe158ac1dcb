//! A session as it was recorded, and why bytes are no recording.

ghost use Rattle.std.specs.Prelude.{◌≡◌};
ghost use Rattle.recording_text.specs.declared.recording.ReadError.TheVariants.{NoMemory};

use pg_client::{DeskCall, EndKind};
use pg_messages::{PgBytes, PgList, SecretKey};
use std::alloc::{AllocError, AllocFailed};

/// A session as it was recorded.
#[derive(Debug, Drop)]
pub struct Recording {
    /// The pid of the registration.
    pub pid: i32,
    /// The secret key of the registration.
    pub key: SecretKey,
    /// The bytes that the client gave.
    pub client: PgBytes,
    /// The calls of the cancel registry, with their answers.
    pub calls: PgList<DeskCall>,
    /// The bytes of the replies.
    pub replies: PgBytes,
    /// How the session ended.
    pub end: EndKind,
}

/// Why bytes are not read as a recording. Fields are judged from the left.
#[derive(Clone, Copy, Debug, PartialEq, Eq)]
pub enum ReadError {
    /// The bytes of a field aren't all there.
    Truncated,
    /// A field has a value that it may not have. The number is the place of its first byte.
    BadField(u64),
    /// Bytes stand behind the last field. The number is the place of the first.
    Trailing(u64),
    /// Memory ran out.
    NoMemory,
}

impl From<AllocError> for ReadError {
    ghost from_gives = { λ _ e. e ≡ NoMemory };

    fn from(_error: AllocError) -> ReadError {
        ReadError::NoMemory
    }
}

impl<T: Drop> From<AllocFailed<T>> for ReadError {
    ghost from_gives = { λ _ e. e ≡ NoMemory };

    fn from(_error: AllocFailed<T>) -> ReadError {
        ReadError::NoMemory
    }
}
