//! How a recording is written as bytes.

ghost use Rattle.std.specs.Prelude.{◌≡◌, ◌≤◌, ◌<◌, ◌^◌, ◌++◌, length, IfOk, OnOk};
ghost use Rattle.std.specs.List.{flat_map};
ghost use Rattle.recording_text.specs.Text.{call_text, calls_text, key_text, bytes_text, end_byte, recording_text};
ghost use Rattle.pg_messages.specs.Fields.{int32};

use crate::recording::Recording;
use pg_client::{DeskCall, EndKind};
use pg_messages::{PgBytes, SecretKey};
use std::alloc::{AllocError, Global};

/// What a recording begins with, the text `PGR1` as a number.
const TAG: u32 = 0x5047_5231;

/// The text of a recording, in memory that is taken at once.
pub fn write_recording(alloc: Global, recording: &Recording) -> Result<PgBytes, AllocError>
    requires { length recording.now.calls < 2 ^ 32 }
    ensures { IfOk result (λ text. text ≡ recording_text recording.now) }
{
    let mut out = Vec::new(alloc);
    out.reserve(text_len(recording))?;
    out.extend_from_slice(&TAG.to_be_bytes())?;
    put_registration(recording.pid, &recording.key, &mut out)?;
    put_bytes(recording.client.as_slice(), &mut out)?;
    put_calls(recording.calls.as_slice(), &mut out)?;
    put_bytes(recording.replies.as_slice(), &mut out)?;
    out.push(end_byte(recording.end))?;
    Ok(PgBytes::from_vec(out))
}

/// How many bytes the text of a recording has, so that they are taken at once, and no more. The
/// number stops at the greatest `usize`.
fn text_len(recording: &Recording) -> usize
    ensures { result ≤ length (recording_text recording.now) }
{
    // The tag, pid, three counts and the end are 29 bytes, a key's length is two.
    calls_len(recording.calls.as_slice())
        .saturating_add(recording.client.len())
        .saturating_add(recording.replies.len())
        .saturating_add(recording.key.as_slice().len() + 31)
}

/// How many bytes the calls take.
fn calls_len(calls: &[DeskCall]) -> usize
    ensures { result ≤ length (flat_map call_text calls.now) }
{
    let mut len = 0usize;
    for call in calls {
        len = len.saturating_add(call_len(call));
    }
    len
}

/// How many bytes a call takes.
fn call_len(call: &DeskCall) -> usize
    ensures { result ≡ length (call_text call.now) }
{
    match call {
        DeskCall::Start | DeskCall::Ask(_) | DeskCall::Narrow => 1,
        DeskCall::Cancel(_, key, _) => key.as_slice().len() + 7,
    }
}

fn put_registration(pid: i32, key: &SecretKey, out: &mut Vec<u8>) -> Result<(), AllocError>
    ensures { OnOk result (out.new.items ≡ out.old.items ++ (int32 pid ++ key_text key.now)) }
{
    let key = key.as_slice();
    out.extend_from_slice(&pid.to_be_bytes())?;
    out.extend_from_slice(&(key.len() as u16).to_be_bytes())?;
    out.extend_from_slice(key)
}

fn put_bytes(bytes: &[u8], out: &mut Vec<u8>) -> Result<(), AllocError>
    ensures { OnOk result (out.new.items ≡ out.old.items ++ bytes_text bytes.now) }
{
    out.extend_from_slice(&(bytes.len() as u64).to_be_bytes())?;
    out.extend_from_slice(bytes)
}

fn put_call(call: &DeskCall, out: &mut Vec<u8>) -> Result<(), AllocError>
    ensures { OnOk result (out.new.items ≡ out.old.items ++ call_text call.now) }
{
    match call {
        DeskCall::Start => {
            out.push(0)?;
            Ok(())
        }
        DeskCall::Ask(yes) => {
            out.push(if *yes { 2 } else { 1 })?;
            Ok(())
        }
        DeskCall::Cancel(pid, key, yes) => {
            out.push(if *yes { 4 } else { 3 })?;
            put_registration(*pid, key, out)
        }
        DeskCall::Narrow => {
            out.push(5)?;
            Ok(())
        }
    }
}

fn put_items(calls: &[DeskCall], out: &mut Vec<u8>) -> Result<(), AllocError>
    ensures { OnOk result (out.new.items ≡ out.old.items ++ flat_map call_text calls.now) }
{
    for call in calls {
        put_call(call, out)?;
    }
    Ok(())
}

fn put_calls(calls: &[DeskCall], out: &mut Vec<u8>) -> Result<(), AllocError>
    requires { length calls.now < 2 ^ 32 }
    ensures { OnOk result (out.new.items ≡ out.old.items ++ calls_text calls.now) }
{
    out.extend_from_slice(&(calls.len() as u32).to_be_bytes())?;
    put_items(calls, out)
}

fn end_byte(end: EndKind) -> u8
    ensures { result ≡ end_byte end }
{
    match end {
        EndKind::Terminate => 0,
        EndKind::InputEnd => 1,
        EndKind::BadFrame => 2,
        EndKind::Fatal => 3,
        EndKind::CancelServed => 4,
    }
}
