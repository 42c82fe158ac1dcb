//! How a command ended, the transaction status, errors, and the answers to a request to encrypt.

ghost use Rattle.std.specs.Prelude.{◌≡◌, ◌↔◌, ◌≤◌, ◌+◌, ◌++◌, ◌∷◌, IsTrue, codes, length};
ghost use Rattle.pg_messages.specs.Fields.{string};
ghost use Rattle.pg_messages.specs.Replies.{status_byte};

use crate::put::Put;
use crate::values::PgStr;
use bytes::BytesMut;

/// No encryption, in answer to SSLRequest. Protocol, "SSL Session Encryption": the byte `N` alone.
#[derive(Drop)]
pub struct SslResponse {}

/// No encryption, in answer to GSSENCRequest. Protocol, "GSSAPI Session Encryption": the byte `N`
/// alone.
#[derive(Drop)]
pub struct GssEncResponse {}

/// The transaction status of a session.
#[derive(Clone, Copy, Debug, PartialEq, Eq)]
pub enum TransactionStatus {
    /// Outside a transaction: `I`.
    Idle,
    /// In a transaction: `T`.
    Transaction,
    /// In a transaction that failed: `E`.
    Error,
}

impl TransactionStatus {
    ghost use Rattle.std.specs.Prelude.{◌≡◌};
    ghost use Rattle.pg_messages.specs.Status.{to_error_state, to_in_transaction_state};
    ghost use Rattle.pg_messages.specs.declared.response.TransactionStatus.TheVariants.{Idle, Error};

    /// The status once a transaction ended.
    pub fn to_idle_state(self) -> TransactionStatus
        ensures { result ≡ Idle }
    {
        TransactionStatus::Idle
    }

    /// The status after an error: outside a transaction it stays Idle. In a transaction, that one
    /// has failed.
    pub fn to_error_state(self) -> TransactionStatus
        ensures meant { result ≡ to_error_state self }
        ensures idle { self ≡ Idle → result ≡ Idle }
    {
        match self {
            TransactionStatus::Idle => TransactionStatus::Idle,
            _ => TransactionStatus::Error,
        }
    }

    /// The status once a transaction was begun. One that has failed stays failed.
    pub fn to_in_transaction_state(self) -> TransactionStatus
        ensures meant { result ≡ to_in_transaction_state self }
        ensures failed { self ≡ Error → result ≡ Error }
    {
        match self {
            TransactionStatus::Error => TransactionStatus::Error,
            _ => TransactionStatus::Transaction,
        }
    }
}

/// The server awaits the next query. Protocol, ReadyForQuery: Byte1 `Z`, Int32 length 5, Byte1
/// status, `I`, `T` or `E`.
#[derive(Drop)]
pub struct ReadyForQuery {
    /// The session's transaction status.
    pub status: TransactionStatus,
}

/// A command was done. Protocol, CommandComplete: Byte1 `C`, Int32 length, String tag.
#[derive(Drop)]
pub struct CommandComplete {
    /// What was done, such as `SELECT 3`.
    pub tag: PgStr,
}

/// A query was empty, so it has no result. Protocol, EmptyQueryResponse: Byte1 `I`, Int32 length 4.
#[derive(Drop)]
pub struct EmptyQueryResponse {}

/// An error as it is told to a client.
#[derive(Drop)]
pub struct ErrorInfo {
    /// `ERROR`, or `FATAL` where the session ends.
    pub severity: PgStr,
    /// The five characters of the error's code.
    pub code: PgStr,
    /// What a person reads.
    pub message: PgStr,
}

impl ErrorInfo {
    /// The error with these texts. It takes no memory.
    pub fn new(severity: PgStr, code: PgStr, message: PgStr) -> ErrorInfo
        ensures severity { result.severity ≡ severity }
        ensures code { result.code ≡ code }
        ensures message { result.message ≡ message }
    {
        ErrorInfo {
            severity,
            code,
            message,
        }
    }

    /// Whether the error ends the session: its severity is `FATAL`.
    pub fn is_fatal(&self) -> bool
        ensures { IsTrue result ↔ (self.now.severity ≡ codes "FATAL") }
    {
        self.severity.as_str() == "FATAL"
    }
}

/// An error. Protocol, ErrorResponse: Byte1 `E`, Int32 length, the fields `S` severity, `V`
/// severity, `C` code and `M` message, each a byte and a String, and a zero byte.
#[derive(Drop)]
pub struct ErrorResponse {
    /// The error's texts.
    pub info: ErrorInfo,
}

impl Put for ErrorInfo {
    ghost use Rattle.pg_messages.specs.Replies.{error_fields};

    ghost bytes_of = { error_fields };

    fn byte_len(&self) -> u64 {
        let severity = self.severity.byte_len();
        let texts = self.code.byte_len().saturating_add(self.message.byte_len());
        severity
            .saturating_add(severity)
            .saturating_add(texts)
            .saturating_add(5)
    }

    fn put(&self, dst: &mut BytesMut) {
        put_field(b'S', &self.severity, dst);
        put_field(b'V', &self.severity, dst);
        put_field(b'C', &self.code, dst);
        put_field(b'M', &self.message, dst);
        dst.extend_reserved(&[0]);
    }
}

fn put_field(kind: u8, text: &PgStr, dst: &mut BytesMut)
    requires { length (string text.now) + 1 ≤ dst.old.spare }
    ensures items { dst.new.items ≡ dst.old.items ++ kind ∷ string text.now }
    ensures spare { dst.new.spare + (length (string text.now) + 1) ≡ dst.old.spare }
{
    dst.extend_reserved(&[kind]);
    text.put(dst);
}

/// The byte of a status.
pub fn status_byte(status: TransactionStatus) -> u8
    ensures { result ≡ status_byte status }
{
    match status {
        TransactionStatus::Idle => b'I',
        TransactionStatus::Transaction => b'T',
        TransactionStatus::Error => b'E',
    }
}
