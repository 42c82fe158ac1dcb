//! The messages of the extended query, and the replies to them.

use crate::codec::FrameError;
use crate::fields::{Field, list};
use crate::values::{PgBytes, PgList, PgStr};
use std::alloc::Global;

/// A target byte of Describe and Close: a prepared statement, `S`.
pub const TARGET_TYPE_BYTE_STATEMENT: u8 = b'S';

/// A target byte of Describe and Close: a portal, `P`.
pub const TARGET_TYPE_BYTE_PORTAL: u8 = b'P';

/// Prepares a statement. Protocol, Parse: Byte1 `P`, Int32 length, String name, String query, Int16
/// count, and as many Int32 type oids.
#[derive(Drop)]
pub struct Parse {
    /// The statement's name; the empty text is the unnamed one.
    pub name: PgStr,
    /// The query's text.
    pub query: PgStr,
    /// The parameter types that the client gave, which may be fewer than the parameters.
    pub type_oids: PgList<u32>,
}

/// Makes a portal of a statement. Protocol, Bind: Byte1 `B`, Int32 length, String portal, String
/// statement, Int16 count and as many Int16 format codes, Int16 count and as many values, each
/// Int32 length (-1 for null) and as many bytes, and Int16 count and as many Int16 format codes of
/// the results.
#[derive(Drop)]
pub struct Bind {
    /// The portal's name; the empty text is the unnamed one.
    pub portal_name: PgStr,
    /// The statement's name; the empty text is the unnamed one.
    pub statement_name: PgStr,
    /// The formats of the values: none for text, one for all, or one for each.
    pub parameter_format_codes: PgList<i16>,
    /// The values, None for null.
    pub parameters: PgList<Option<PgBytes>>,
    /// The formats of the result's columns: none for text, one for all, or one for each.
    pub result_column_format_codes: PgList<i16>,
}

/// Asks for the description of a statement or a portal. Protocol, Describe: Byte1 `D`, Int32
/// length, Byte1 target, String name.
#[derive(Drop)]
pub struct Describe {
    /// `S` for a statement, `P` for a portal; any other byte is carried too.
    pub target_type: u8,
    /// The statement's or portal's name; the empty text is the unnamed one.
    pub name: PgStr,
}

/// Runs a portal. Protocol, Execute: Byte1 `E`, Int32 length, String portal, Int32 limit.
#[derive(Drop)]
pub struct Execute {
    /// The portal's name; the empty text is the unnamed one.
    pub name: PgStr,
    /// The greatest number of rows; below 1 all of them.
    pub max_rows: i32,
}

/// Removes a statement or portal. Protocol, Close: Byte1 `C`, Int32 length, Byte1 target, String
/// name.
#[derive(Drop)]
pub struct Close {
    /// `S` for a statement, `P` for a portal; any other byte is carried too.
    pub target_type: u8,
    /// The statement's or portal's name; the empty text is the unnamed one.
    pub name: PgStr,
}

/// Asks for the replies that aren't sent yet. Protocol, Flush: Byte1 `H`, Int32 length 4.
#[derive(Drop)]
pub struct Flush {}

/// Ends a series of messages. Protocol, Sync: Byte1 `S`, Int32 length 4.
#[derive(Drop)]
pub struct PgSync {}

/// A Parse was done. Protocol, ParseComplete: Byte1 `1`, Int32 length 4.
#[derive(Drop)]
pub struct ParseComplete {}

/// A Bind was done. Protocol, BindComplete: Byte1 `2`, Int32 length 4.
#[derive(Drop)]
pub struct BindComplete {}

/// A Close was done. Protocol, CloseComplete: Byte1 `3`, Int32 length 4.
#[derive(Drop)]
pub struct CloseComplete {}

/// An Execute reached its limit of rows, and another one can go on. Protocol, PortalSuspended:
/// Byte1 `s`, Int32 length 4.
#[derive(Drop)]
pub struct PortalSuspended {}

impl Field for Parse {
    ghost use Rattle.pg_messages.specs.Reading.{parse_at};

    ghost field_at = { parse_at };

    #[tactic(auto, unfolding(crate::specs::Reading::parse_at))]
    fn read(alloc: Global, bytes: &[u8]) -> Result<(Parse, &[u8]), FrameError> {
        let (name, rest) = PgStr::read(alloc, bytes)?;
        let (query, rest) = PgStr::read(alloc, rest)?;
        let (type_oids, rest) = list(alloc, rest)?;
        let message = Parse {
            name,
            query,
            type_oids,
        };
        Ok((message, rest))
    }
}

impl Field for Bind {
    ghost use Rattle.pg_messages.specs.Reading.{bind_at};

    ghost field_at = { bind_at };

    #[tactic(auto, unfolding(crate::specs::Reading::bind_at))]
    fn read(alloc: Global, bytes: &[u8]) -> Result<(Bind, &[u8]), FrameError> {
        let (portal_name, rest) = PgStr::read(alloc, bytes)?;
        let (statement_name, rest) = PgStr::read(alloc, rest)?;
        let (parameter_format_codes, rest) = list(alloc, rest)?;
        let (parameters, rest) = list(alloc, rest)?;
        let (result_column_format_codes, rest) = list(alloc, rest)?;
        let message = Bind {
            portal_name,
            statement_name,
            parameter_format_codes,
            parameters,
            result_column_format_codes,
        };
        Ok((message, rest))
    }
}

impl Field for Describe {
    ghost use Rattle.pg_messages.specs.Reading.{describe_at};

    ghost field_at = { describe_at };

    #[tactic(auto, unfolding(crate::specs::Reading::describe_at))]
    fn read(alloc: Global, bytes: &[u8]) -> Result<(Describe, &[u8]), FrameError> {
        let (target_type, rest) = u8::read(alloc, bytes)?;
        let (name, rest) = PgStr::read(alloc, rest)?;
        Ok((Describe { target_type, name }, rest))
    }
}

impl Field for Execute {
    ghost use Rattle.pg_messages.specs.Reading.{execute_at};

    ghost field_at = { execute_at };

    #[tactic(auto, unfolding(crate::specs::Reading::execute_at))]
    fn read(alloc: Global, bytes: &[u8]) -> Result<(Execute, &[u8]), FrameError> {
        let (name, rest) = PgStr::read(alloc, bytes)?;
        let (max_rows, rest) = i32::read(alloc, rest)?;
        Ok((Execute { name, max_rows }, rest))
    }
}

// It has no body, so no bytes are read.
impl Field for PgSync {
    ghost use Rattle.pg_messages.specs.Reading.{sync_at};

    ghost field_at = { sync_at };

    fn read(_alloc: Global, bytes: &[u8]) -> Result<(PgSync, &[u8]), FrameError> {
        Ok((PgSync {}, bytes))
    }
}

impl Field for Close {
    ghost use Rattle.pg_messages.specs.Reading.{close_at};

    ghost field_at = { close_at };

    #[tactic(auto, unfolding(crate::specs::Reading::close_at))]
    fn read(alloc: Global, bytes: &[u8]) -> Result<(Close, &[u8]), FrameError> {
        let (target_type, rest) = u8::read(alloc, bytes)?;
        let (name, rest) = PgStr::read(alloc, rest)?;
        Ok((Close { target_type, name }, rest))
    }
}
