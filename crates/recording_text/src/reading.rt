//! How the bytes of a recording are read.

ghost use Rattle.std.specs.Prelude.{◌≡◌, ◌≤◌, ◌-◌, ℕ, length, IfOk, IfErr, Ok};
ghost use Rattle.std.specs.Int.{w16, w32, w64};
ghost use Rattle.recording_text.specs.declared.recording.Recording.{Recording};
ghost use Rattle.recording_text.specs.Judging.{AnswersUnlessNoMemory, Gives, both_at, tag_at, number_at, signed_at, number_is_at, key_len_at, key_at, counted_at, registration_at, call_at, calls_at, end_at, items_at, judged};
ghost use Rattle.recording_text.specs.Text.{tag, recording_text, IsKey, IsRecordable};

use crate::recording::{ReadError, Recording};
use pg_client::{DeskCall, EndKind};
use pg_messages::{KeyError, PgBytes, PgList, SecretKey};
use std::alloc::Global;

/// What a recording begins with, the text `PGR1` as a number.
const TAG: u32 = 0x5047_5231;

/// The recording that the bytes are the text of. Its client's bytes and its reply bytes are copied
/// once.
///
/// Fields are judged from the left. Truncated: a field's bytes aren't all there. BadField: the tag
/// isn't `PGR1`, a key's length isn't 4 to 256, the byte of a call is above 5, that of the end above
/// 4. Trailing: bytes stand behind the end. NoMemory: memory ran out. No memory is taken for a count
/// before its bytes or calls are seen to be there.
pub fn read_recording(alloc: Global, bytes: &[u8]) -> Result<Recording, ReadError>
    // What is read has these bytes as its text.
    ensures found { IfOk result (λ r. IsRecordable r × (bytes.now ≡ recording_text r)) }

    // What has these bytes as its text is read.
    ensures only { (r : Recording) → IsRecordable r → bytes.now ≡ recording_text r
        → AnswersUnlessNoMemory result (Ok r) }

    // Which refusal it is.
    ensures refused { AnswersUnlessNoMemory result (judged bytes.now) }
{
    whole(alloc, bytes)
}

#[tactic(auto, unfolding(crate::specs::Judging::judged, crate::specs::Judging::parts_at))]
fn whole(alloc: Global, bytes: &[u8]) -> Result<Recording, ReadError>
    ensures { Gives (λ r. r) result (judged bytes.now) }
{
    let all = bytes.len();
    let ((((_, pid), key), client), rest) = front(alloc, all, bytes)?;
    let (calls, rest) = calls(alloc, all, rest)?;
    let (replies, rest) = counted(alloc, rest)?;
    let (end, rest) = end(all, rest)?;
    if !rest.is_empty() {
        return Err(ReadError::Trailing(place(all, rest)));
    }
    Ok(Recording {
        pid,
        key,
        client,
        calls,
        replies,
        end,
    })
}

/// The tag, the registration and the client's bytes.
fn front(
    alloc: Global,
    all: usize,
    bytes: &[u8],
) -> Result<((((u32, i32), SecretKey), PgBytes), &[u8]), ReadError>
    ensures { Gives (λ x. (x.0, x.1.now)) result
        (both_at (both_at (both_at (tag_at all) (signed_at w32)) (key_at all)) counted_at
        bytes.now) }
{
    let (tag, rest) = number_is(TAG, all, bytes)?;
    let (pid, rest) = signed(rest)?;
    let (key, rest) = key(alloc, all, rest)?;
    let (client, rest) = counted(alloc, rest)?;
    Ok(((((tag, pid), key), client), rest))
}

/// The place of the first of these bytes, which are the last ones of `all` bytes.
fn place(all: usize, bytes: &[u8]) -> u64
    ensures { result ≡ all - length bytes.now }
{
    all.saturating_sub(bytes.len()) as u64
}

fn number(bytes: &[u8]) -> Result<(u32, &[u8]), ReadError>
    ensures { Gives (λ x. (x.0, x.1.now)) result (number_at w32 bytes.now) }
{
    if bytes.len() < 4 {
        return Err(ReadError::Truncated);
    }
    let (front, rest) = bytes.split_at(4);
    let number = u32::from_be_bytes([front[0], front[1], front[2], front[3]]);
    Ok((number, rest))
}

fn number_is(wanted: u32, all: usize, bytes: &[u8]) -> Result<(u32, &[u8]), ReadError>
    ensures { Gives (λ x. (x.0, x.1.now)) result (number_is_at w32 wanted all bytes.now) }
{
    let (found, rest) = number(bytes)?;
    if found != wanted {
        return Err(ReadError::BadField(place(all, bytes)));
    }
    Ok((found, rest))
}

fn signed(bytes: &[u8]) -> Result<(i32, &[u8]), ReadError>
    ensures { Gives (λ x. (x.0, x.1.now)) result (signed_at w32 bytes.now) }
{
    if bytes.len() < 4 {
        return Err(ReadError::Truncated);
    }
    let (front, rest) = bytes.split_at(4);
    let number = i32::from_be_bytes([front[0], front[1], front[2], front[3]]);
    Ok((number, rest))
}

fn short(bytes: &[u8]) -> Result<(u16, &[u8]), ReadError>
    ensures { Gives (λ x. (x.0, x.1.now)) result (number_at w16 bytes.now) }
{
    if bytes.len() < 2 {
        return Err(ReadError::Truncated);
    }
    let (front, rest) = bytes.split_at(2);
    Ok((u16::from_be_bytes([front[0], front[1]]), rest))
}

fn key_len(all: usize, bytes: &[u8]) -> Result<(u16, &[u8]), ReadError>
    ensures read { Gives (λ x. (x.0, x.1.now)) result (key_len_at all bytes.now) }
    ensures bounded { IfOk result (λ x. (4 ≤ x.0) × (x.0 ≤ 256)) }
{
    let (len, rest) = short(bytes)?;
    if len < 4 || 256 < len {
        return Err(ReadError::BadField(place(all, bytes)));
    }
    Ok((len, rest))
}

/// The key of these bytes, which are copied.
fn key_of(alloc: Global, bytes: &[u8]) -> Result<SecretKey, ReadError>
    requires { IsKey bytes.now }
    ensures ok { IfOk result (λ key. key ≡ bytes.now) }
    ensures no_memory { IfErr result (λ error. error ≡ ReadError.NoMemory) }
{
    match SecretKey::try_new(alloc, bytes) {
        Ok(key) => Ok(key),
        Err(KeyError::NoMemory) => Err(ReadError::NoMemory),
        Err(KeyError::BadLength(_)) => unreachable!(),
    }
}

#[tactic(auto, unfolding(crate::specs::Judging::key_at))]
fn key(alloc: Global, all: usize, bytes: &[u8]) -> Result<(SecretKey, &[u8]), ReadError>
    ensures { Gives (λ x. (x.0, x.1.now)) result (key_at all bytes.now) }
{
    let (len, rest) = key_len(all, bytes)?;
    if rest.len() < len as usize {
        return Err(ReadError::Truncated);
    }
    let (front, rest) = rest.split_at(len as usize);
    Ok((key_of(alloc, front)?, rest))
}

fn long(bytes: &[u8]) -> Result<(u64, &[u8]), ReadError>
    ensures { Gives (λ x. (x.0, x.1.now)) result (number_at w64 bytes.now) }
{
    if bytes.len() < 8 {
        return Err(ReadError::Truncated);
    }
    let (front, rest) = bytes.split_at(8);
    let number = u64::from_be_bytes([
        front[0], front[1], front[2], front[3], front[4], front[5], front[6], front[7],
    ]);
    Ok((number, rest))
}

#[tactic(auto, unfolding(crate::specs::Judging::counted_at))]
fn counted(alloc: Global, bytes: &[u8]) -> Result<(PgBytes, &[u8]), ReadError>
    ensures { Gives (λ x. (x.0, x.1.now)) result (counted_at bytes.now) }
{
    let (len, rest) = long(bytes)?;
    if (rest.len() as u64) < len {
        return Err(ReadError::Truncated);
    }
    let (front, rest) = rest.split_at(len as usize);
    Ok((PgBytes::copy_of(alloc, front)?, rest))
}

#[tactic(auto, unfolding(crate::specs::Judging::registration_at))]
fn registration(
    alloc: Global,
    all: usize,
    bytes: &[u8],
) -> Result<((i32, SecretKey), &[u8]), ReadError>
    ensures { Gives (λ x. (x.0, x.1.now)) result (registration_at all bytes.now) }
{
    let (pid, rest) = signed(bytes)?;
    let (key, rest) = key(alloc, all, rest)?;
    Ok(((pid, key), rest))
}

#[tactic(auto, unfolding(crate::specs::Judging::call_at))]
fn call(alloc: Global, all: usize, bytes: &[u8]) -> Result<(DeskCall, &[u8]), ReadError>
    ensures { Gives (λ x. (x.0, x.1.now)) result (call_at all bytes.now) }
{
    match bytes {
        [] => Err(ReadError::Truncated),
        [0, rest @ ..] => Ok((DeskCall::Start, rest)),
        [1, rest @ ..] => Ok((DeskCall::Ask(false), rest)),
        [2, rest @ ..] => Ok((DeskCall::Ask(true), rest)),
        [3, rest @ ..] => {
            let ((pid, key), rest) = registration(alloc, all, rest)?;
            Ok((DeskCall::Cancel(pid, key, false), rest))
        }
        [4, rest @ ..] => {
            let ((pid, key), rest) = registration(alloc, all, rest)?;
            Ok((DeskCall::Cancel(pid, key, true), rest))
        }
        [5, rest @ ..] => Ok((DeskCall::Narrow, rest)),
        [_, ..] => Err(ReadError::BadField(place(all, bytes))),
    }
}

fn items(
    alloc: Global,
    all: usize,
    count: u32,
    bytes: &[u8],
) -> Result<(PgList<DeskCall>, &[u8]), ReadError>
    ensures { Gives (λ x. (x.0, x.1.now)) result (items_at (call_at all) count bytes.now) }
{
    let mut items = PgList::new(alloc);
    let mut rest = bytes;
    for _ in 0..count {
        let (item, after) = call(alloc, all, rest)?;
        items.push(item)?;
        rest = after;
    }
    Ok((items, rest))
}

#[tactic(auto, unfolding(crate::specs::Judging::calls_at))]
fn calls(alloc: Global, all: usize, bytes: &[u8]) -> Result<(PgList<DeskCall>, &[u8]), ReadError>
    ensures { Gives (λ x. (x.0, x.1.now)) result (calls_at all bytes.now) }
{
    let (count, rest) = number(bytes)?;
    items(alloc, all, count, rest)
}

#[tactic(auto, unfolding(crate::specs::Judging::end_at))]
fn end(all: usize, bytes: &[u8]) -> Result<(EndKind, &[u8]), ReadError>
    ensures { Gives (λ x. (x.0, x.1.now)) result (end_at all bytes.now) }
{
    match bytes {
        [] => Err(ReadError::Truncated),
        [0, rest @ ..] => Ok((EndKind::Terminate, rest)),
        [1, rest @ ..] => Ok((EndKind::InputEnd, rest)),
        [2, rest @ ..] => Ok((EndKind::BadFrame, rest)),
        [3, rest @ ..] => Ok((EndKind::Fatal, rest)),
        [4, rest @ ..] => Ok((EndKind::CancelServed, rest)),
        [_, ..] => Err(ReadError::BadField(place(all, bytes))),
    }
}
