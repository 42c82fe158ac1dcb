//! COPY: data of either side, how it ends, and the replies that begin it.

ghost use Rattle.std.specs.Prelude.{◌≡◌, ◌≤◌, ◌+◌, ◌++◌, length};
ghost use Rattle.pg_messages.specs.Replies.{copy_columns};

use crate::codec::FrameError;
use crate::fields::Field;
use crate::put::{Put, put_all};
use crate::values::{PgBytes, PgList, PgStr};
use bytes::BytesMut;
use std::alloc::Global;

/// Data of a COPY, of the client or of the server. Protocol, CopyData: Byte1 `d`, Int32 length, and
/// the bytes.
#[derive(Drop)]
pub struct CopyData {
    /// The bytes.
    pub payload: PgBytes,
}

/// The data of a COPY is complete. Client and server send it. Protocol, CopyDone: Byte1 `c`, Int32
/// length 4.
#[derive(Drop)]
pub struct CopyDone {}

/// The client gives a COPY up. Protocol, CopyFail: Byte1 `f`, Int32 length, String message.
#[derive(Drop)]
pub struct CopyFail {
    /// Why, for a person to read.
    pub message: PgStr,
}

/// The client may send data. Protocol, CopyInResponse: Byte1 `G`, Int32 length, Int8 format, Int16
/// count of columns, and their Int16 format codes.
#[derive(Drop)]
pub struct CopyInResponse {
    /// 0 where the data is text, 1 where it is binary.
    pub format: i8,
    /// How many columns there are.
    pub columns: i16,
    /// The format of each column.
    pub column_formats: PgList<i16>,
}

/// Data of the server follows. Protocol, CopyOutResponse: Byte1 `H`, Int32 length, Int8 format,
/// Int16 count of columns, and their Int16 format codes.
#[derive(Drop)]
pub struct CopyOutResponse {
    /// 0 where the data is text, 1 where it is binary.
    pub format: i8,
    /// How many columns there are.
    pub columns: i16,
    /// The format of each column.
    pub column_formats: PgList<i16>,
}

/// Data of both sides follows. Protocol, CopyBothResponse: Byte1 `W`, Int32 length, Int8 format,
/// Int16 count of columns, and their Int16 format codes.
#[derive(Drop)]
pub struct CopyBothResponse {
    /// 0 where the data is text, 1 where it is binary.
    pub format: i8,
    /// How many columns there are.
    pub columns: i16,
    /// The format of each column.
    pub column_formats: PgList<i16>,
}

impl Field for CopyFail {
    ghost use Rattle.pg_messages.specs.Reading.{copy_fail_at};

    ghost field_at = { copy_fail_at };

    #[tactic(auto, unfolding(crate::specs::Reading::copy_fail_at))]
    fn read(alloc: Global, bytes: &[u8]) -> Result<(CopyFail, &[u8]), FrameError> {
        let (message, rest) = PgStr::read(alloc, bytes)?;
        Ok((CopyFail { message }, rest))
    }
}

/// Appends the body of a reply that begins a COPY: Int8 format, Int16 count of columns, and their
/// Int16 format codes.
pub fn put_columns(format: i8, columns: i16, column_formats: &[i16], dst: &mut BytesMut)
    requires { length (copy_columns format columns column_formats.now) ≤ dst.old.spare }
    ensures items { dst.new.items
        ≡ dst.old.items ++ copy_columns format columns column_formats.now }
    ensures spare { dst.new.spare + length (copy_columns format columns column_formats.now)
        ≡ dst.old.spare }
{
    format.put(dst);
    columns.put(dst);
    put_all(column_formats, dst);
}
