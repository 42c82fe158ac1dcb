ghost use Rattle.std.specs.Prelude.{◌≡◌};
ghost use Rattle.pg_types.specs.Formats.{format_code, format_of_code};

use pg_messages::{FORMAT_CODE_BINARY, FORMAT_CODE_TEXT};

/// How the bytes of a field are written.
#[derive(Clone, Copy, Debug, PartialEq, Eq)]
pub enum FieldFormat {
    Text,
    Binary,
}

impl FieldFormat {
    /// The Int16 that stands for the format: 0 is text, 1 is binary (protocol, "Formats and Format
    /// Codes").
    pub fn value(&self) -> i16
        ensures { result ≡ format_code self.now }
    {
        match self {
            FieldFormat::Text => FORMAT_CODE_TEXT,
            FieldFormat::Binary => FORMAT_CODE_BINARY,
        }
    }

    /// The format that an Int16 stands for: 1 is binary, and every other code text.
    pub fn from(code: i16) -> FieldFormat
        ensures { result ≡ format_of_code code }
    {
        if code == FORMAT_CODE_BINARY {
            FieldFormat::Binary
        } else {
            FieldFormat::Text
        }
    }
}
