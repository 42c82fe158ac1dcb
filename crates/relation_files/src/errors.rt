//! Why a relation file is refused.

ghost use Rattle.std.specs.Prelude.{◌≡◌};
ghost use Rattle.relation_files.specs.Reader.{error_at};

use pg_interval::ParseError;
use std::alloc::AllocError;

/// Why a line breaks the rules of a relation file.
#[derive(Debug, PartialEq, Eq, Drop)]
pub enum LineReason {
    /// It isn't UTF-8.
    Text,
    /// A header has fewer than two fields, or the second is no decimal number of at most
    /// 4,294,967,295.
    Header,
    /// A header's name is one that no table of relations takes, or is that of an earlier header.
    Name,
    /// A header has over 1,600 columns, or a column's name is over 63 bytes or holds a zero byte.
    Column,
    /// A row has more or fewer fields than the relation has columns.
    Width,
    /// A field of a row is no interval in the style `postgres`. The error is that of the first one.
    Cell(ParseError),
}

/// Why a relation file gives no table.
#[derive(Debug, PartialEq, Eq, Drop)]
pub enum FileError {
    /// The line of this number, counted from 1, is the first that breaks a rule.
    BadLine(u64, LineReason),
    /// The file gave more than 67,108,864 bytes.
    TooLong,
    /// A read failed.
    FileFault,
    /// Memory ran out.
    NoMemory,
}

impl From<AllocError> for FileError {
    ghost use Rattle.std.specs.Prelude.{◌≡◌};
    ghost use Rattle.relation_files.specs.declared.errors.FileError.TheVariants.{NoMemory};

    ghost from_gives = { λ _ e. e ≡ NoMemory };

    fn from(_e: AllocError) -> FileError {
        FileError::NoMemory
    }
}

/// Why a line was not taken.
#[derive(Drop)]
pub(crate) enum LineError {
    /// It breaks a rule.
    Refused(LineReason),
    /// Memory ran out.
    NoMemory,
}

impl From<AllocError> for LineError {
    ghost use Rattle.std.specs.Prelude.{◌≡◌};
    ghost use Rattle.relation_files.specs.declared.errors.LineError.TheVariants.{NoMemory};

    ghost from_gives = { λ _ e. e ≡ NoMemory };

    fn from(_e: AllocError) -> LineError {
        LineError::NoMemory
    }
}

impl LineError {
    /// The error of the file whose line of this number it is.
    pub(crate) fn at(self, number: u64) -> FileError
        ensures { result ≡ error_at number self }
    {
        match self {
            LineError::Refused(reason) => FileError::BadLine(number, reason),
            LineError::NoMemory => FileError::NoMemory,
        }
    }
}
