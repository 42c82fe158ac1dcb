ghost use Rattle.std.specs.Prelude.{◌≡◌};
ghost use Rattle.pg_text.specs.Cells.{IsRead};
ghost use Rattle.pg_text.specs.Words.{or_invalid, bytea_output_of};

use crate::format::words::{is_name, trimmed};
use pg_types::{BYTEA_OUTPUT_HEX, CellError};
use std::alloc::Global;

/// The name of the output of byte strings with escapes.
pub const BYTEA_OUTPUT_ESCAPE: &str = "escape";

/// How byte strings are written as text (`bytea_output`).
#[derive(Clone, Copy, Debug, PartialEq, Eq)]
pub enum ByteaOutput {
    /// Two hexadecimal digits for each byte.
    Hex,
    /// Characters, and an octal escape for each byte that isn't one.
    Escape,
}

impl Default for ByteaOutput {
    ghost use Rattle.pg_text.specs.declared.format.bytea_output.ByteaOutput.{ByteaOutput};

    ghost is_default = { λ output. output ≡ ByteaOutput.Hex };

    fn default() -> ByteaOutput {
        ByteaOutput::Hex
    }
}

impl ByteaOutput {
    /// The output that a text names. Whitespace at its ends and the case of ASCII letters don't
    /// matter. A text that names none is the error `InvalidOptionValue`, which holds the text as it
    /// was given.
    pub fn try_from_text(alloc: Global, value: &str) -> Result<ByteaOutput, CellError>
        ensures { IsRead (or_invalid value.now (bytea_output_of value.now)) result }
    {
        match ByteaOutput::named(value) {
            Some(option) => Ok(option),
            None => Err(CellError::invalid_option(alloc, value)),
        }
    }

    /// The value that a text names.
    pub(crate) fn named(value: &str) -> Option<ByteaOutput>
        ensures { result ≡ bytea_output_of value.now }
    {
        let word = trimmed(value);
        if is_name(word, BYTEA_OUTPUT_HEX) {
            Some(ByteaOutput::Hex)
        } else if is_name(word, BYTEA_OUTPUT_ESCAPE) {
            Some(ByteaOutput::Escape)
        } else {
            None
        }
    }
}
