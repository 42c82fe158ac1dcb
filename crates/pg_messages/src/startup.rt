//! The start and the end of a session: startup packets, the replies to them, and Terminate.

ghost use Rattle.std.specs.Prelude.{◌≡◌, MatchOption, Some, None};
ghost use Rattle.pg_messages.specs.Reading.{Gives, after_zero, all_parameters_at, key_of, cancel_of};

use crate::codec::FrameError;
use crate::fields::Field;
use crate::secret_key::{KeyError, SecretKey};
use crate::values::{PgList, PgStr};
use std::alloc::Global;

/// The code of protocol version 3.0.
pub const PROTOCOL_3_0: u32 = 196608;

/// The code of protocol version 3.2.
pub const PROTOCOL_3_2: u32 = 196610;

/// The first packet of a session. Protocol, "Message Formats", StartupMessage: Int32 length, which
/// counts itself, Int32 version, pairs of Strings (name, value), and a zero byte. Of a version that
/// isn't supported, so neither 196608 nor 196610, only the code is read.
#[derive(Drop)]
pub struct Startup {
    /// The protocol version, its major part in the upper sixteen bits.
    pub code: u32,
    /// The parameters in their order; no name is empty.
    pub parameters: PgList<(PgStr, PgStr)>,
}

/// A request to encrypt the session, in the place of a startup packet. Protocol, SSLRequest and
/// GSSENCRequest: Int32 length 8, Int32 code.
#[derive(Clone, Copy, PartialEq, Eq)]
pub enum SslNegotiationKind {
    /// SSLRequest: code 80877103.
    PostgresSsl,
    /// GSSENCRequest: code 80877104.
    PostgresGss,
}

/// Asks to cancel a query of another session, in the place of a startup packet. Protocol,
/// CancelRequest: Int32 length 16 to 268, Int32 code 80877102, Int32 pid, 4 to 256 bytes of key.
#[derive(Drop)]
pub struct CancelRequest {
    /// The other session's process number.
    pub pid: i32,
    /// The other session's secret.
    pub secret_key: SecretKey,
}

/// Ends the session. Protocol, Terminate: Byte1 `X`, Int32 length 4.
#[derive(Drop)]
pub struct Terminate {}

/// The client is accepted. Protocol, "Message Formats", AuthenticationOk: Byte1 `R`, Int32 length
/// 8, Int32 0.
#[derive(Drop)]
pub struct AuthenticationOk {}

/// A setting of the server, sent at the start. Protocol, ParameterStatus: Byte1 `S`, Int32 length,
/// String name, String value.
#[derive(Drop)]
pub struct ParameterStatus {
    /// The setting's name.
    pub name: PgStr,
    /// Its value as text.
    pub value: PgStr,
}

/// What a client sends back to cancel a query of this session. Protocol, BackendKeyData: Byte1 `K`,
/// Int32 length, 8 more than the key has bytes, Int32 pid, 4 to 256 bytes of key.
#[derive(Drop)]
pub struct BackendKeyData {
    /// The session's process number.
    pub pid: i32,
    /// The session's secret.
    pub secret_key: SecretKey,
}

/// The request to cancel that a body holds. Its key is all that follows the pid. `Bad`: there is no
/// pid, or the key is below 4 or above 256 bytes.
#[tactic(auto, unfolding(crate::specs::Reading::cancel_of))]
pub fn cancel_request(alloc: Global, body: &[u8]) -> Result<CancelRequest, FrameError>
    ensures { Gives (λ m. m) result (cancel_of body.now) }
{
    let (pid, rest) = i32::read(alloc, body)?;
    let secret_key = key_of(alloc, rest)?;
    Ok(CancelRequest { pid, secret_key })
}

fn key_of(alloc: Global, bytes: &[u8]) -> Result<SecretKey, FrameError>
    ensures { Gives (λ key. key) result (key_of bytes.now) }
{
    match SecretKey::try_new(alloc, bytes) {
        Ok(key) => Ok(key),
        Err(KeyError::BadLength(_)) => Err(FrameError::Bad),
        Err(KeyError::NoMemory) => Err(FrameError::NoMemory),
    }
}

impl Field for PgList<(PgStr, PgStr)> {
    ghost use Rattle.pg_messages.specs.Reading.{all_parameters_at};

    ghost field_at = { all_parameters_at };

    fn read(alloc: Global, bytes: &[u8]) -> Result<(PgList<(PgStr, PgStr)>, &[u8]), FrameError> {
        parameters(alloc, bytes)
    }
}

// Pairs of texts, and the zero byte that ends them. There are fewer pairs than bytes.
fn parameters(alloc: Global, bytes: &[u8]) -> Result<(PgList<(PgStr, PgStr)>, &[u8]), FrameError>
    ensures { Gives (λ x. (x.0, x.1.now)) result (all_parameters_at bytes.now) }
{
    let mut parameters = PgList::new(alloc);
    let mut rest = bytes;
    for _ in 0..bytes.len() {
        if let Some(after) = after_zero(rest) {
            return Ok((parameters, after));
        }
        let (parameter, after) = <(PgStr, PgStr)>::read(alloc, rest)?;
        parameters.push(parameter)?;
        rest = after;
    }
    Err(FrameError::Bad)
}

fn after_zero(bytes: &[u8]) -> Option<&[u8]>
    ensures { MatchOption result (after_zero bytes.now ≡ None)
        (λ rest. after_zero bytes.now ≡ Some rest.now) }
{
    match bytes {
        [0, rest @ ..] => Some(rest),
        _ => None,
    }
}
