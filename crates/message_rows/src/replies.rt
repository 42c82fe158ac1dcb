//! Replies from the words of a row.

use crate::parts::{bytes_of, first_of, number, numbers_of, text_of};
use pg_messages::{
    AuthenticationOk, BackendKeyData, BindComplete, CloseComplete, CommandComplete,
    CopyBothResponse, CopyData, CopyDone, CopyInResponse, CopyOutResponse, DataRow,
    EmptyQueryResponse, ErrorInfo, ErrorResponse, FieldDescription, GssEncResponse, KeyError,
    NoData, ParameterDescription, ParameterStatus, ParseComplete, PgBytes, PgList, PgStr,
    PgWireBackendMessage, PortalSuspended, ReadyForQuery, RowDescription, SecretKey, SslResponse,
    TransactionStatus,
};
use row_files::times_and_rest;
use std::alloc::{AllocError, Global};
use std::str::FromStr;

/// A reply, where there is one of that name with such fields.
type Made = Result<Option<PgWireBackendMessage>, AllocError>;

/// The reply of this name with these fields.
pub fn reply_of(alloc: Global, kind: &str, parts: &str) -> Made {
    match kind {
        "ParameterStatus" => setting(alloc, parts),
        "BackendKeyData" => key_data(alloc, parts),
        "ParameterDescription" => types(alloc, parts),
        "RowDescription" => columns(alloc, parts),
        "DataRow" => row(alloc, parts),
        "CommandComplete" => done(alloc, parts),
        "ErrorResponse" => error(alloc, parts),
        "CopyData" => copied(alloc, parts),
        "CopyInResponse" | "CopyOutResponse" | "CopyBothResponse" => copying(alloc, kind, parts),
        _ => Ok(bare(kind, parts)),
    }
}

/// Drops a reply.
pub fn let_go(_reply: PgWireBackendMessage) {}

/// The reply of this name that owns nothing.
fn bare(kind: &str, parts: &str) -> Option<PgWireBackendMessage> {
    match kind {
        "ReadyForQuery" => Some(PgWireBackendMessage::ReadyForQuery(ready(parts))),
        "SslResponse" => Some(PgWireBackendMessage::SslResponse(SslResponse {})),
        "GssEncResponse" => Some(PgWireBackendMessage::GssEncResponse(GssEncResponse {})),
        "AuthenticationOk" => Some(PgWireBackendMessage::AuthenticationOk(AuthenticationOk {})),
        "ParseComplete" => Some(PgWireBackendMessage::ParseComplete(ParseComplete {})),
        "BindComplete" => Some(PgWireBackendMessage::BindComplete(BindComplete {})),
        "CloseComplete" => Some(PgWireBackendMessage::CloseComplete(CloseComplete {})),
        "PortalSuspended" => Some(PgWireBackendMessage::PortalSuspended(PortalSuspended {})),
        "NoData" => Some(PgWireBackendMessage::NoData(NoData {})),
        "EmptyQueryResponse" => {
            Some(PgWireBackendMessage::EmptyQueryResponse(EmptyQueryResponse {}))
        }
        "CopyDone" => Some(PgWireBackendMessage::CopyDone(CopyDone {})),
        _ => None,
    }
}

fn ready(letter: &str) -> ReadyForQuery {
    let status = match letter {
        "I" => TransactionStatus::Error.to_idle_state(),
        "T" => TransactionStatus::Idle.to_in_transaction_state(),
        _ => TransactionStatus::Transaction.to_error_state(),
    };
    ReadyForQuery { status }
}

fn key_data(alloc: Global, parts: &str) -> Made {
    let (pid, key) = first_of(parts);
    let bytes = bytes_of(alloc, key)?;
    key_data_with(
        number::<i32>(pid),
        SecretKey::try_new(alloc, bytes.as_slice()),
    )
}

/// A key has 4 to 256 bytes.
fn key_data_with(pid: i32, key: Result<SecretKey, KeyError>) -> Made {
    match key {
        Ok(secret_key) => {
            Ok(Some(PgWireBackendMessage::BackendKeyData(BackendKeyData { pid, secret_key })))
        }
        Err(KeyError::BadLength(_)) => Ok(None),
        Err(KeyError::NoMemory) => Err(AllocError),
    }
}

fn setting(alloc: Global, parts: &str) -> Made {
    let (name, value) = two_texts(alloc, parts)?;
    Ok(Some(PgWireBackendMessage::ParameterStatus(ParameterStatus { name, value })))
}

/// The text of the first word, and that of those behind it.
fn two_texts(alloc: Global, words: &str) -> Result<(PgStr, PgStr), AllocError> {
    let (one, other) = first_of(words);
    let one = text_of(alloc, one)?;
    Ok((one, text_of(alloc, other)?))
}

fn done(alloc: Global, parts: &str) -> Made {
    let tag = text_of(alloc, parts)?;
    Ok(Some(PgWireBackendMessage::CommandComplete(CommandComplete { tag })))
}

fn error(alloc: Global, parts: &str) -> Made {
    let (severity, rest) = first_of(parts);
    let (code, message) = two_texts(alloc, rest)?;
    let info = ErrorInfo::new(text_of(alloc, severity)?, code, message);
    Ok(Some(PgWireBackendMessage::ErrorResponse(ErrorResponse { info })))
}

fn types(alloc: Global, parts: &str) -> Made {
    let types = numbers_of::<u32>(alloc, parts)?;
    Ok(Some(PgWireBackendMessage::ParameterDescription(ParameterDescription { types })))
}

fn columns(alloc: Global, parts: &str) -> Made {
    let fields = fields_of(alloc, parts)?;
    Ok(Some(PgWireBackendMessage::RowDescription(RowDescription { fields })))
}

fn fields_of(alloc: Global, parts: &str) -> Result<PgList<FieldDescription>, AllocError> {
    let mut fields = PgList::new(alloc);
    for word in parts.split_whitespace() {
        push_fields(alloc, &mut fields, word)?;
    }
    Ok(fields)
}

/// Appends the columns of a word.
fn push_fields(
    alloc: Global,
    fields: &mut PgList<FieldDescription>,
    word: &str,
) -> Result<(), AllocError> {
    let (times, part) = times_and_rest(word);
    for _ in 0..times {
        fields.push(field_of(alloc, part)?)?;
    }
    Ok(())
}

// `NAME,TABLE,COLUMN,TYPE,SIZE,MODIFIER,FORMAT`
fn field_of(alloc: Global, part: &str) -> Result<FieldDescription, AllocError> {
    let (name, numbers) = part.split_once(",").unwrap_or((part, ""));
    let name = text_of(alloc, name)?;
    Ok(field_with(name, numbers))
}

fn field_with(name: PgStr, numbers: &str) -> FieldDescription {
    FieldDescription {
        name,
        table_id: number_at::<i32>(numbers, 0),
        column_id: number_at::<i16>(numbers, 1),
        type_id: number_at::<u32>(numbers, 2),
        type_size: number_at::<i16>(numbers, 3),
        type_modifier: number_at::<i32>(numbers, 4),
        format_code: number_at::<i16>(numbers, 5),
    }
}

/// The number at this place, from 0.
fn number_at<T: FromStr + Default + Drop>(numbers: &str, place: usize) -> T
where
    <T as FromStr>::Err: Drop,
{
    number::<T>(numbers.split(",").nth(place).unwrap_or(""))
}

fn row(alloc: Global, parts: &str) -> Made {
    let (count, cells) = first_of(parts);
    let payload = PgBytes::from_vec(bytes_of(alloc, cells)?);
    let field_count = number::<i16>(count);
    Ok(Some(PgWireBackendMessage::DataRow(DataRow {
        payload,
        field_count,
    })))
}

fn copied(alloc: Global, parts: &str) -> Made {
    let payload = PgBytes::from_vec(bytes_of(alloc, parts)?);
    Ok(Some(PgWireBackendMessage::CopyData(CopyData { payload })))
}

fn copying(alloc: Global, kind: &str, parts: &str) -> Made {
    let (format, rest) = first_of(parts);
    let (columns, codes) = first_of(rest);
    let codes = numbers_of::<i16>(alloc, codes)?;
    Ok(Some(copying_with(kind, number::<i8>(format), number::<i16>(columns), codes)))
}

/// The answer of this name to a COPY.
fn copying_with(
    kind: &str,
    format: i8,
    columns: i16,
    column_formats: PgList<i16>,
) -> PgWireBackendMessage {
    match kind {
        "CopyInResponse" => PgWireBackendMessage::CopyInResponse(CopyInResponse {
            format,
            columns,
            column_formats,
        }),
        "CopyOutResponse" => PgWireBackendMessage::CopyOutResponse(CopyOutResponse {
            format,
            columns,
            column_formats,
        }),
        _ => PgWireBackendMessage::CopyBothResponse(CopyBothResponse {
            format,
            columns,
            column_formats,
        }),
    }
}
