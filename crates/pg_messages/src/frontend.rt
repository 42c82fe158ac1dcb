//! The messages of a client, and the reading of each by its kind.

ghost use Rattle.std.specs.Prelude.{◌≡◌, ◌≢◌, true, false, [], ◌∷◌, Contains, OnOk, OnErr};
ghost use Rattle.pg_messages.specs.Frames.{is_extended_query};
ghost use Rattle.pg_messages.specs.Reading.{Gives, message_at};

use crate::codec::FrameError;
use crate::copy::{CopyData, CopyDone, CopyFail};
use crate::extendedquery::{Bind, Close, Describe, Execute, Flush, Parse, PgSync};
use crate::fields::whole;
use crate::simplequery::Query;
use crate::startup::{
    CancelRequest, PROTOCOL_3_0, PROTOCOL_3_2, SslNegotiationKind, Startup, Terminate,
    cancel_request,
};
use crate::values::{PgBytes, PgList};
use std::alloc::Global;

/// A message of the client. The first three come while the startup packet is awaited, the others
/// afterwards.
#[derive(Drop)]
pub enum PgWireFrontendMessage {
    Startup(Startup),
    SslNegotiation(SslNegotiationKind),
    CancelRequest(CancelRequest),
    Query(Query),
    Parse(Parse),
    Bind(Bind),
    Describe(Describe),
    Execute(Execute),
    Close(Close),
    Flush(Flush),
    PgSync(PgSync),
    Terminate(Terminate),
    CopyData(CopyData),
    CopyDone(CopyDone),
    CopyFail(CopyFail),
}

impl PgWireFrontendMessage {
    /// Whether the message belongs to the extended query: Parse, Bind, Describe, Execute, Close,
    /// Flush and Sync do.
    pub fn is_extended_query(&self) -> bool
        ensures { result ≡ is_extended_query self.now }
    {
        matches!(
            self,
            PgWireFrontendMessage::Parse(_)
                | PgWireFrontendMessage::Bind(_)
                | PgWireFrontendMessage::Describe(_)
                | PgWireFrontendMessage::Execute(_)
                | PgWireFrontendMessage::Close(_)
                | PgWireFrontendMessage::Flush(_)
                | PgWireFrontendMessage::PgSync(_)
        )
    }
}

/// The message that a startup packet's code and body give. `Bad`: no message has this body.
#[tactic(auto, unfolding(crate::specs::Reading::message_at))]
pub fn startup_message(
    alloc: Global,
    code: u32,
    body: &[u8],
) -> Result<PgWireFrontendMessage, FrameError>
    ensures { Gives (λ m. m) result (message_at true code body.now) }
{
    match code {
        PROTOCOL_3_0 | PROTOCOL_3_2 => {
            let parameters = whole(alloc, body)?;
            Ok(PgWireFrontendMessage::Startup(Startup { code, parameters }))
        }
        80877102 => Ok(PgWireFrontendMessage::CancelRequest(cancel_request(alloc, body)?)),
        80877103 => {
            empty(body)?;
            Ok(PgWireFrontendMessage::SslNegotiation(SslNegotiationKind::PostgresSsl))
        }
        80877104 => {
            empty(body)?;
            Ok(PgWireFrontendMessage::SslNegotiation(SslNegotiationKind::PostgresGss))
        }
        _ => {
            let parameters = PgList::new(alloc);
            Ok(PgWireFrontendMessage::Startup(Startup { code, parameters }))
        }
    }
}

/// The message that a type byte and a body give. `Bad`: no message has this type byte and body.
#[tactic(auto, unfolding(crate::specs::Reading::message_at))]
pub fn typed_message(
    alloc: Global,
    kind: u8,
    body: &[u8],
) -> Result<PgWireFrontendMessage, FrameError>
    ensures { Gives (λ m. m) result (message_at false kind body.now) }
{
    match kind {
        b'Q' => Ok(PgWireFrontendMessage::Query(whole(alloc, body)?)),
        b'P' => Ok(PgWireFrontendMessage::Parse(whole(alloc, body)?)),
        b'B' => Ok(PgWireFrontendMessage::Bind(whole(alloc, body)?)),
        b'D' => Ok(PgWireFrontendMessage::Describe(whole(alloc, body)?)),
        b'E' => Ok(PgWireFrontendMessage::Execute(whole(alloc, body)?)),
        b'C' => Ok(PgWireFrontendMessage::Close(whole(alloc, body)?)),
        b'd' | b'f' => copy_message(alloc, kind, body),
        b'H' if body.is_empty() => Ok(PgWireFrontendMessage::Flush(Flush {})),
        b'S' if body.is_empty() => Ok(PgWireFrontendMessage::PgSync(PgSync {})),
        b'X' if body.is_empty() => Ok(PgWireFrontendMessage::Terminate(Terminate {})),
        b'c' if body.is_empty() => Ok(PgWireFrontendMessage::CopyDone(CopyDone {})),
        _ => Err(FrameError::Bad),
    }
}

/// The CopyData or CopyFail that a type byte and a body give.
#[tactic(auto, unfolding(crate::specs::Reading::message_at))]
fn copy_message(alloc: Global, kind: u8, body: &[u8]) -> Result<PgWireFrontendMessage, FrameError>
    requires { Contains (100 ∷ 102 ∷ []) kind }
    ensures { Gives (λ m. m) result (message_at false kind body.now) }
{
    if kind == b'f' {
        return Ok(PgWireFrontendMessage::CopyFail(whole(alloc, body)?));
    }
    let payload = PgBytes::copy_of(alloc, body)?;
    Ok(PgWireFrontendMessage::CopyData(CopyData { payload }))
}

fn empty(body: &[u8]) -> Result<(), FrameError>
    ensures ok { OnOk result (body.now ≡ []) }
    ensures err { OnErr result (body.now ≢ []) }
{
    if !body.is_empty() {
        return Err(FrameError::Bad);
    }
    Ok(())
}
