//! The formats of values or columns (protocol: Extended Query, Bind; Formats and Format Codes).

ghost use Rattle.std.specs.Prelude.{◌≡◌, option_map, IfOk};
ghost use Rattle.pg_results.specs.Formats.{format_of, format_for, is_text, is_binary};

use pg_messages::PgList;
use pg_types::FieldFormat;
use std::alloc::{AllocError, Global};

/// The formats of values or columns.
#[derive(Debug, Default, Drop)]
pub enum Format {
    /// All are text.
    #[default]
    UnifiedText,
    /// All are binary.
    UnifiedBinary,
    /// Each has the format of its code.
    Individual(PgList<i16>),
}

impl From<i16> for Format {
    ghost use Rattle.std.specs.Prelude.{◌≡◌};
    ghost use Rattle.pg_types.specs.Formats.{format_of_code};
    ghost use Rattle.pg_results.specs.Formats.{unified};

    ghost from_gives = { λ code format. format ≡ unified (format_of_code code) };

    /// One format for all: binary for the code 1, else text.
    fn from(code: i16) -> Format {
        match FieldFormat::from(code) {
            FieldFormat::Binary => Format::UnifiedBinary,
            FieldFormat::Text => Format::UnifiedText,
        }
    }
}

impl Format {
    /// The formats of a Bind's codes: none is text, one is for all, several are one for each. The
    /// only error is running out of memory.
    pub fn from_codes(alloc: Global, codes: &[i16]) -> Result<Format, AllocError>
        ensures { IfOk result (λ format. format ≡ format_of codes.now) }
    {
        match codes {
            [] => Ok(Format::UnifiedText),
            [code] => Ok(Format::from(*code)),
            _ => Ok(Format::Individual(copy_of_codes(alloc, codes)?)),
        }
    }

    /// The format of the value at an index, or None exactly where the index is past the individual
    /// codes. It takes no memory.
    pub fn format_for(&self, idx: usize) -> Option<FieldFormat>
        ensures { result ≡ format_for self.now idx }
    {
        match self {
            Format::UnifiedText => Some(FieldFormat::Text),
            Format::UnifiedBinary => Some(FieldFormat::Binary),
            Format::Individual(codes) => match codes.as_slice().get(idx) {
                Some(code) => Some(FieldFormat::from(*code)),
                None => None,
            },
        }
    }

    /// Whether the value at an index is text, or None exactly where the index is past the
    /// individual codes.
    pub fn is_text(&self, idx: usize) -> Option<bool>
        ensures { result ≡ option_map is_text (format_for self.now idx) }
    {
        match self.format_for(idx) {
            Some(format) => Some(matches!(format, FieldFormat::Text)),
            None => None,
        }
    }

    /// Whether the value at an index is binary, or None exactly where the index is past the
    /// individual codes.
    pub fn is_binary(&self, idx: usize) -> Option<bool>
        ensures { result ≡ option_map is_binary (format_for self.now idx) }
    {
        match self.format_for(idx) {
            Some(format) => Some(matches!(format, FieldFormat::Binary)),
            None => None,
        }
    }

    /// An equal value.
    pub fn copy_of(&self, alloc: Global) -> Result<Format, AllocError>
        ensures { IfOk result (λ copy. copy ≡ self.now) }
    {
        match self {
            Format::UnifiedText => Ok(Format::UnifiedText),
            Format::UnifiedBinary => Ok(Format::UnifiedBinary),
            Format::Individual(codes) => Ok(Format::Individual(copy_of_codes(
                alloc,
                codes.as_slice(),
            )?)),
        }
    }
}

/// A copy of codes.
fn copy_of_codes(alloc: Global, codes: &[i16]) -> Result<PgList<i16>, AllocError>
    ensures { IfOk result (λ copy. copy ≡ codes.now) }
{
    Ok(PgList::from_vec(Vec::from_slice(alloc, codes)?))
}
