ghost use Rattle.std.specs.Prelude.{◌≡◌, ◌⊎◌};
ghost use Rattle.pg_types.specs.declared.error.CellError.TheVariants.{InvalidOptionValue, NoMemory};

use interval_errors::ParseError;
use pg_messages::PgStr;
use std::alloc::{AllocError, Global};

/// Why a cell isn't written or read, or an option has no meaning.
#[derive(Debug, Drop)]
pub enum CellError {
    /// A value of this kind can't be written to a column of the type.
    WrongType,
    /// A binary cell has too few bytes.
    ShortCell,
    /// A text cell isn't UTF-8.
    NotUtf8,
    /// A text cell stands for no value.
    Parse(ParseError),
    /// This text of an option is none of the option's values.
    InvalidOptionValue(PgStr),
    /// A duration is too long for an interval.
    DurationOverflow,
    /// Memory ran out.
    NoMemory,
}

impl From<AllocError> for CellError {
    ghost from_gives = { λ _ e. e ≡ NoMemory };

    fn from(_error: AllocError) -> CellError {
        CellError::NoMemory
    }
}

impl CellError {
    /// The refusal of an option's value, which it holds, or `NoMemory`.
    pub fn invalid_option(alloc: Global, value: &str) -> CellError
        ensures { (result ≡ InvalidOptionValue value.now) ⊎ (result ≡ NoMemory) }
    {
        match PgStr::copy_of(alloc, value) {
            Ok(value) => CellError::InvalidOptionValue(value),
            Err(_) => CellError::NoMemory,
        }
    }
}
