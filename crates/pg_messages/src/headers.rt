//! The headers of frames, judged as soon as they are whole. While the startup packet is awaited a
//! header is Int32 length, which counts itself; afterwards Byte1 type and Int32 length, which counts
//! itself and not the type byte (protocol, "Message Formats").

ghost use Rattle.std.specs.Prelude.{◌≡◌, ◌≤◌, ◌↔◌, true, false, length, IsTrue, Contains, IfOk, IfSome, IfNone, OnErr};
ghost use Rattle.pg_messages.specs.Frames.{IsUnfinished, IsGoodHeader, header_len, told_len, type_bytes};

use crate::codec::FrameError;

/// The least length of a startup packet, which holds its length and a code.
const LEAST_STARTUP: u32 = 8;

/// The greatest length of a startup packet. PostgreSQL has about the same limit.
const MOST_STARTUP: u32 = 10_000;

/// The least length of a typed frame, which holds its length.
const LEAST_TYPED: u32 = 4;

/// The greatest length of a typed frame, so that a client can't make a session hold more.
const MOST_TYPED: u32 = 1_048_576;

/// How many bytes the header of a frame has: 4 while the startup packet is awaited, since it has no
/// type byte, and 5 afterwards.
pub fn header_len(awaiting: bool) -> usize
    ensures { result ≡ header_len awaiting }
{
    if awaiting { 4 } else { 5 }
}

/// How many bytes the first frame has, as its header says. For a startup packet it is the length.
/// For a typed frame it is one more, since the length doesn't count the type byte. The header may
/// be a bad one.
pub fn told_len(awaiting: bool, bytes: &[u8]) -> usize
    requires { header_len awaiting ≤ length bytes.now }
    ensures { result ≡ told_len awaiting bytes.now }
{
    if awaiting {
        u32::from_be_bytes([bytes[0], bytes[1], bytes[2], bytes[3]]) as usize
    } else {
        u32::from_be_bytes([bytes[1], bytes[2], bytes[3], bytes[4]]) as usize + 1
    }
}

/// How many bytes the startup packet in front has, once it is whole: Int32 length, which counts
/// itself, 8 to 10,000, and a body.
///
/// None: the header isn't whole, or it is good and tells more bytes than there are. `Bad`: the
/// header is whole and has another length.
pub fn startup_len(bytes: &[u8]) -> Result<Option<usize>, FrameError>
    ensures told { IfOk result (λ found. IfSome found (λ n. (n ≡ told_len true bytes.now)
        × (n ≤ length bytes.now) × IsGoodHeader true bytes.now)) }
    ensures none { IfOk result (λ found. IfNone found (IsUnfinished true bytes.now)) }
    ensures bad { OnErr result ((4 ≤ length bytes.now) × ¬ IsGoodHeader true bytes.now) }
{
    if bytes.len() < 4 {
        return Ok(None);
    }
    let len = u32::from_be_bytes([bytes[0], bytes[1], bytes[2], bytes[3]]);
    if len < LEAST_STARTUP || len > MOST_STARTUP {
        return Err(FrameError::Bad);
    }
    let len = len as usize;
    if bytes.len() < len {
        return Ok(None);
    }
    Ok(Some(len))
}

/// How many bytes the typed frame in front has, once it is whole: Byte1 type, Int32 length, which
/// counts itself and not the type byte, 4 to 1,048,576, and a body (protocol, "Message Formats").
///
/// None: the header isn't whole, or it is good and tells more bytes than there are. `Bad`: the
/// header is whole and has another length or an unknown type byte. No other error comes, and
/// nothing of the body is looked at.
pub fn typed_len(bytes: &[u8]) -> Result<Option<usize>, FrameError>
    ensures told { IfOk result (λ found. IfSome found (λ n. (n ≡ told_len false bytes.now)
        × (n ≤ length bytes.now) × IsGoodHeader false bytes.now)) }
    ensures none { IfOk result (λ found. IfNone found (IsUnfinished false bytes.now)) }
    ensures bad { OnErr result ((5 ≤ length bytes.now) × ¬ IsGoodHeader false bytes.now) }
{
    if bytes.len() < 5 {
        return Ok(None);
    }
    let len = u32::from_be_bytes([bytes[1], bytes[2], bytes[3], bytes[4]]);
    if !is_type(bytes[0]) || len < LEAST_TYPED || len > MOST_TYPED {
        return Err(FrameError::Bad);
    }
    let len = len as usize + 1;
    if bytes.len() < len {
        return Ok(None);
    }
    Ok(Some(len))
}

fn is_type(byte: u8) -> bool
    ensures { IsTrue result ↔ Contains type_bytes byte }
{
    (b'Q' == byte)
        | (b'P' == byte)
        | (b'B' == byte)
        | (b'D' == byte)
        | (b'E' == byte)
        | (b'C' == byte)
        | (b'H' == byte)
        | (b'S' == byte)
        | (b'X' == byte)
        | (b'd' == byte)
        | (b'c' == byte)
        | (b'f' == byte)
}
