//! The replies of a server, and the writing of each.

ghost use Rattle.std.specs.Prelude.{◌≡◌, ◌≤◌, ◌+◌, ◌-◌, ◌^◌, ◌++◌, length, min};
ghost use Rattle.pg_messages.specs.Replies.{IsEncodable, reply_type, reply_body, is_one_byte};

use crate::copy::{
    CopyBothResponse, CopyData, CopyDone, CopyInResponse, CopyOutResponse, put_columns,
};
use crate::data::{DataRow, NoData, ParameterDescription, RowDescription};
use crate::extendedquery::{BindComplete, CloseComplete, ParseComplete, PortalSuspended};
use crate::put::{Put, list_len, put_list};
use crate::response::{
    CommandComplete, EmptyQueryResponse, ErrorResponse, GssEncResponse, ReadyForQuery, SslResponse,
    status_byte,
};
use crate::startup::{AuthenticationOk, BackendKeyData, ParameterStatus};
use bytes::BytesMut;

/// A reply of the server. Each is one type byte, Int32 length, which counts itself and not the type
/// byte, and a body; the answers to a request to encrypt are the byte `N` alone.
#[derive(Drop)]
pub enum PgWireBackendMessage {
    SslResponse(SslResponse),
    GssEncResponse(GssEncResponse),
    AuthenticationOk(AuthenticationOk),
    ParameterStatus(ParameterStatus),
    BackendKeyData(BackendKeyData),
    ReadyForQuery(ReadyForQuery),
    ParseComplete(ParseComplete),
    BindComplete(BindComplete),
    CloseComplete(CloseComplete),
    PortalSuspended(PortalSuspended),
    ParameterDescription(ParameterDescription),
    RowDescription(RowDescription),
    NoData(NoData),
    DataRow(DataRow),
    CommandComplete(CommandComplete),
    EmptyQueryResponse(EmptyQueryResponse),
    ErrorResponse(ErrorResponse),
    CopyInResponse(CopyInResponse),
    CopyOutResponse(CopyOutResponse),
    CopyBothResponse(CopyBothResponse),
    CopyData(CopyData),
    CopyDone(CopyDone),
}

impl PgWireBackendMessage {
    /// How many bytes follow the length. The number saturates at the greatest u64. A reply with at
    /// most 1,073,741,823 can be sent.
    #[inline(always)]
    pub fn body_len(&self) -> u64
        ensures { result ≡ min (length (reply_body self.now)) (2 ^ 64 - 1) }
    {
        match self {
            PgWireBackendMessage::AuthenticationOk(_) => 4,
            PgWireBackendMessage::ParameterStatus(m) => {
                m.name.byte_len().saturating_add(m.value.byte_len())
            }
            PgWireBackendMessage::BackendKeyData(m) => 4 + m.secret_key.as_slice().len() as u64,
            PgWireBackendMessage::ReadyForQuery(_) => 1,
            PgWireBackendMessage::ParameterDescription(m) => list_len(2, m.types.as_slice()),
            PgWireBackendMessage::RowDescription(m) => list_len(2, m.fields.as_slice()),
            PgWireBackendMessage::DataRow(m) => (m.payload.len() as u64).saturating_add(2),
            PgWireBackendMessage::CommandComplete(m) => m.tag.byte_len(),
            PgWireBackendMessage::ErrorResponse(m) => m.info.byte_len(),
            PgWireBackendMessage::CopyInResponse(m) => list_len(3, m.column_formats.as_slice()),
            PgWireBackendMessage::CopyOutResponse(m) => list_len(3, m.column_formats.as_slice()),
            PgWireBackendMessage::CopyBothResponse(m) => list_len(3, m.column_formats.as_slice()),
            PgWireBackendMessage::CopyData(m) => m.payload.len() as u64,
            _ => 0,
        }
    }
}

/// The type byte of a reply.
#[inline(always)]
pub fn type_byte(item: &PgWireBackendMessage) -> u8
    ensures { result ≡ reply_type item.now }
{
    match item {
        PgWireBackendMessage::SslResponse(_) => b'N',
        PgWireBackendMessage::GssEncResponse(_) => b'N',
        PgWireBackendMessage::AuthenticationOk(_) => b'R',
        PgWireBackendMessage::ParameterStatus(_) => b'S',
        PgWireBackendMessage::BackendKeyData(_) => b'K',
        PgWireBackendMessage::ReadyForQuery(_) => b'Z',
        PgWireBackendMessage::ParseComplete(_) => b'1',
        PgWireBackendMessage::BindComplete(_) => b'2',
        PgWireBackendMessage::CloseComplete(_) => b'3',
        PgWireBackendMessage::PortalSuspended(_) => b's',
        PgWireBackendMessage::ParameterDescription(_) => b't',
        PgWireBackendMessage::RowDescription(_) => b'T',
        PgWireBackendMessage::NoData(_) => b'n',
        PgWireBackendMessage::DataRow(_) => b'D',
        PgWireBackendMessage::CommandComplete(_) => b'C',
        PgWireBackendMessage::EmptyQueryResponse(_) => b'I',
        PgWireBackendMessage::ErrorResponse(_) => b'E',
        PgWireBackendMessage::CopyInResponse(_) => b'G',
        PgWireBackendMessage::CopyOutResponse(_) => b'H',
        PgWireBackendMessage::CopyBothResponse(_) => b'W',
        PgWireBackendMessage::CopyData(_) => b'd',
        PgWireBackendMessage::CopyDone(_) => b'c',
    }
}

/// Whether the type byte is the whole reply.
#[inline(always)]
pub fn is_one_byte(item: &PgWireBackendMessage) -> bool
    ensures { result ≡ is_one_byte item.now }
{
    matches!(
        item,
        PgWireBackendMessage::SslResponse(_) | PgWireBackendMessage::GssEncResponse(_)
    )
}

/// Appends the bytes that follow the length.
#[inline(always)]
pub fn put_body(item: &PgWireBackendMessage, dst: &mut BytesMut)
    requires fits { IsEncodable item.now }
    requires room { length (reply_body item.now) ≤ dst.old.spare }
    ensures items { dst.new.items ≡ dst.old.items ++ reply_body item.now }
    ensures spare { dst.new.spare + length (reply_body item.now) ≡ dst.old.spare }
{
    match item {
        PgWireBackendMessage::AuthenticationOk(_) => dst.extend_reserved(&[0, 0, 0, 0]),
        PgWireBackendMessage::ParameterStatus(m) => {
            m.name.put(dst);
            m.value.put(dst);
        }
        PgWireBackendMessage::BackendKeyData(m) => {
            m.pid.put(dst);
            dst.extend_reserved(m.secret_key.as_slice());
        }
        PgWireBackendMessage::ReadyForQuery(m) => dst.extend_reserved(&[status_byte(m.status)]),
        PgWireBackendMessage::ParameterDescription(m) => put_list(m.types.as_slice(), dst),
        PgWireBackendMessage::RowDescription(m) => put_list(m.fields.as_slice(), dst),
        PgWireBackendMessage::DataRow(m) => {
            m.field_count.put(dst);
            dst.extend_reserved(m.payload.as_slice());
        }
        PgWireBackendMessage::CommandComplete(m) => m.tag.put(dst),
        PgWireBackendMessage::ErrorResponse(m) => m.info.put(dst),
        PgWireBackendMessage::CopyInResponse(m) => {
            put_columns(m.format, m.columns, m.column_formats.as_slice(), dst);
        }
        PgWireBackendMessage::CopyOutResponse(m) => {
            put_columns(m.format, m.columns, m.column_formats.as_slice(), dst);
        }
        PgWireBackendMessage::CopyBothResponse(m) => {
            put_columns(m.format, m.columns, m.column_formats.as_slice(), dst);
        }
        PgWireBackendMessage::CopyData(m) => dst.extend_reserved(m.payload.as_slice()),
        _ => {}
    }
}
