//! Why the recording of a client isn't kept, and how that is told.

ghost use Rattle.std.specs.Prelude.{◌≡◌, codes};
ghost use Rattle.recorded_clients.specs.Unkept.{status_of, text_of};

use session_recording::RecordError;
use std::alloc::AllocError;

/// Why the recording of a client isn't kept.
#[derive(Clone, Copy, Debug, PartialEq, Eq)]
pub enum Unkept {
    /// There was no room for all bytes. The number is the greater one of those that were read and of
    /// those that were sent.
    TooLong(u64),
    /// The session was given up before its end.
    Unended,
    /// Memory ran out.
    NoMemory,
    /// The file could not be written.
    WriteFault,
}

impl Unkept {
    /// The exit status of a program that kept no recording for this reason: 21 where it was too long,
    /// 7 where memory ran out, 5 where the file could not be written. A session that was given up has
    /// none, which is 0.
    pub fn status(self) -> u8
        ensures { result ≡ status_of self }
    {
        match self {
            Unkept::TooLong(_) => 21,
            Unkept::Unended => 0,
            Unkept::NoMemory => 7,
            Unkept::WriteFault => 5,
        }
    }

    /// The reason in words.
    pub fn text(self) -> &'static str
        ensures { result.now ≡ text_of self }
    {
        match self {
            Unkept::TooLong(_) => "too long",
            Unkept::Unended => "given up",
            Unkept::NoMemory => "out of memory",
            Unkept::WriteFault => "write fault",
        }
    }
}

impl From<RecordError> for Unkept {
    ghost use Rattle.recorded_clients.specs.Unkept.{unkept_of};

    fn from(error: RecordError) -> Unkept
        ensures { result ≡ unkept_of error }
    {
        match error {
            RecordError::TooLong(count) => Unkept::TooLong(count),
            RecordError::Unended => Unkept::Unended,
            RecordError::NoMemory => Unkept::NoMemory,
        }
    }
}

impl From<AllocError> for Unkept {
    ghost use Rattle.recorded_clients.specs.declared.unkept.Unkept.TheVariants as unkept;

    fn from(_error: AllocError) -> Unkept
        ensures { result ≡ unkept.NoMemory }
    {
        Unkept::NoMemory
    }
}
