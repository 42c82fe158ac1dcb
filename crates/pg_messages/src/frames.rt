//! The first frame of bytes, and its message.

ghost use Rattle.std.specs.Prelude.{◌≡◌, ◌≤◌, true, false, length, take, drop, IfOk, IfSome, IfNone, IsErrOf};
ghost use Rattle.std.specs.Int.{w32, from_be_bytes};
ghost use Rattle.pg_messages.specs.Frames.{IsFrame, IsUnfinished, IsBad};

use crate::codec::FrameError;
use crate::frontend::{PgWireFrontendMessage, startup_message, typed_message};
use crate::headers::{startup_len, typed_len};
use std::alloc::Global;

/// The message of the first frame, and the length of the frame; None where there is no whole frame
/// yet. `Bad`: the bytes begin with a bad header, or with a whole frame that carries no message.
pub fn first_frame(
    alloc: Global,
    awaiting: bool,
    bytes: &[u8],
) -> Result<Option<(PgWireFrontendMessage, usize)>, FrameError>
    ensures found { IfOk result (λ answer. IfSome answer (λ found.
        (found.1 ≤ length bytes.now) × IsFrame awaiting (take found.1 bytes.now) found.0)) }
    ensures none { IfOk result (λ answer. IfNone answer (IsUnfinished awaiting bytes.now)) }
    ensures bad { IsErrOf result FrameError.Bad → IsBad awaiting bytes.now }
{
    if awaiting {
        first_startup(alloc, bytes)
    } else {
        first_typed(alloc, bytes)
    }
}

fn first_startup(
    alloc: Global,
    bytes: &[u8],
) -> Result<Option<(PgWireFrontendMessage, usize)>, FrameError>
    ensures found { IfOk result (λ answer. IfSome answer (λ found.
        (found.1 ≤ length bytes.now) × IsFrame true (take found.1 bytes.now) found.0)) }
    ensures none { IfOk result (λ answer. IfNone answer (IsUnfinished true bytes.now)) }
    ensures bad { IsErrOf result FrameError.Bad → IsBad true bytes.now }
{
    let Some(len) = startup_len(bytes)? else {
        return Ok(None);
    };
    let (frame, _) = bytes.split_at(len);
    let (code, body) = code_and_body(frame);
    let message = startup_message(alloc, code, body)?;
    Ok(Some((message, len)))
}

// The code and the body that follow the length of a startup packet.
fn code_and_body(frame: &[u8]) -> (u32, &[u8])
    requires { 8 ≤ length frame.now }
    ensures code { result.0 ≡ from_be_bytes w32 (take 4 (drop 4 frame.now)) }
    ensures body { result.1.now ≡ drop 8 frame.now }
{
    let (_, behind) = frame.split_at(4);
    let code = u32::from_be_bytes([behind[0], behind[1], behind[2], behind[3]]);
    let (_, body) = frame.split_at(8);
    (code, body)
}

fn first_typed(
    alloc: Global,
    bytes: &[u8],
) -> Result<Option<(PgWireFrontendMessage, usize)>, FrameError>
    ensures found { IfOk result (λ answer. IfSome answer (λ found.
        (found.1 ≤ length bytes.now) × IsFrame false (take found.1 bytes.now) found.0)) }
    ensures none { IfOk result (λ answer. IfNone answer (IsUnfinished false bytes.now)) }
    ensures bad { IsErrOf result FrameError.Bad → IsBad false bytes.now }
{
    let Some(len) = typed_len(bytes)? else {
        return Ok(None);
    };
    let (frame, _) = bytes.split_at(len);
    let (header, body) = frame.split_at(5);
    let message = typed_message(alloc, header[0], body)?;
    Ok(Some((message, len)))
}
