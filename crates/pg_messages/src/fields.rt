//! Reading the data types that messages are made of, from the front of bytes.

ghost use Rattle.std.specs.Prelude.{◌≡◌, ◌<◌, ◌==◌, ℕ, List, Option, IfSome, length, position};
ghost use Rattle.std.specs.Int.{w16, w32};
ghost use Rattle.pg_messages.specs.Reading.{Gives, whole, string_at, count_at, items_at, list_at};

use crate::codec::FrameError;
use crate::values::{PgBytes, PgList, PgStr};
use std::alloc::Global;

/// A value that stands in the bytes of a message.
pub trait Field: Sized {
    /// The value at the front of bytes, and what follows it.
    ghost field_at: { List ℕ → Option (Self × List ℕ) };

    /// Reads the value at the front, and returns it with the bytes after it. `Bad`: no value stands
    /// there.
    fn read(alloc: Global, bytes: &[u8]) -> Result<(Self, &[u8]), FrameError>
        ensures { Gives (λ x. (x.0, x.1.now)) result (field_at bytes.now) };
}

/// Reads a value that takes all of the bytes. `Bad`: no value does.
#[inline(always)]
pub fn whole<T: Field + Drop>(alloc: Global, bytes: &[u8]) -> Result<T, FrameError>
    ensures { Gives (λ x. x) result (whole (T.field_at bytes.now)) }
{
    let (value, rest) = T::read(alloc, bytes)?;
    if !rest.is_empty() {
        return Err(FrameError::Bad);
    }
    Ok(value)
}

impl Field for u8 {
    ghost use Rattle.pg_messages.specs.Reading.{byte_at};

    ghost field_at = { byte_at };

    fn read(_alloc: Global, bytes: &[u8]) -> Result<(u8, &[u8]), FrameError> {
        match bytes {
            [byte, rest @ ..] => Ok((*byte, rest)),
            [] => Err(FrameError::Bad),
        }
    }
}

impl Field for u32 {
    ghost use Rattle.std.specs.Int.{w32};
    ghost use Rattle.pg_messages.specs.Reading.{number_at};

    ghost field_at = { number_at w32 };

    fn read(_alloc: Global, bytes: &[u8]) -> Result<(u32, &[u8]), FrameError> {
        if bytes.len() < 4 {
            return Err(FrameError::Bad);
        }
        let (front, rest) = bytes.split_at(4);
        let number = u32::from_be_bytes([front[0], front[1], front[2], front[3]]);
        Ok((number, rest))
    }
}

impl Field for i16 {
    ghost use Rattle.std.specs.Int.{w16};
    ghost use Rattle.pg_messages.specs.Reading.{signed_at};

    ghost field_at = { signed_at w16 };

    fn read(_alloc: Global, bytes: &[u8]) -> Result<(i16, &[u8]), FrameError> {
        if bytes.len() < 2 {
            return Err(FrameError::Bad);
        }
        let (front, rest) = bytes.split_at(2);
        Ok((i16::from_be_bytes([front[0], front[1]]), rest))
    }
}

impl Field for PgStr {
    ghost use Rattle.pg_messages.specs.Reading.{string_at};

    ghost field_at = { string_at };

    // Most names are empty. An empty one needs no search, no test of UTF-8 and no memory.
    #[inline(always)]
    #[tactic(auto, unfolding(crate::specs::Reading::string_at))]
    fn read(alloc: Global, bytes: &[u8]) -> Result<(PgStr, &[u8]), FrameError> {
        match bytes {
            [byte, rest @ ..] if *byte == 0 => Ok((PgStr::from_string(String::new(alloc)), rest)),
            _ => text(alloc, bytes),
        }
    }
}

impl Field for i32 {
    ghost use Rattle.std.specs.Int.{w32};
    ghost use Rattle.pg_messages.specs.Reading.{signed_at};

    ghost field_at = { signed_at w32 };

    fn read(_alloc: Global, bytes: &[u8]) -> Result<(i32, &[u8]), FrameError> {
        if bytes.len() < 4 {
            return Err(FrameError::Bad);
        }
        let (front, rest) = bytes.split_at(4);
        let number = i32::from_be_bytes([front[0], front[1], front[2], front[3]]);
        Ok((number, rest))
    }
}

impl Field for (PgStr, PgStr) {
    ghost use Rattle.pg_messages.specs.Reading.{both_at, string_at};

    ghost field_at = { both_at string_at string_at };

    fn read(alloc: Global, bytes: &[u8]) -> Result<((PgStr, PgStr), &[u8]), FrameError> {
        let (first, rest) = PgStr::read(alloc, bytes)?;
        let (second, rest) = PgStr::read(alloc, rest)?;
        Ok(((first, second), rest))
    }
}

// A text up to its zero byte.
#[inline(never)]
#[tactic(auto, using(crate::proofs::Utf8::utf8_tests), unfolding(crate::specs::Reading::string_at))]
fn text(alloc: Global, bytes: &[u8]) -> Result<(PgStr, &[u8]), FrameError>
    ensures { Gives (λ x. (x.0, x.1.now)) result (string_at bytes.now) }
{
    let Some(end) = first_zero(bytes) else {
        return Err(FrameError::Bad);
    };
    let Ok(text) = str::from_utf8(&bytes[..end]) else {
        return Err(FrameError::Bad);
    };
    let text = PgStr::copy_of(alloc, text)?;
    let (_, rest) = bytes.split_at(end + 1);
    Ok((text, rest))
}

fn first_zero(bytes: &[u8]) -> Option<usize>
    ensures value { result ≡ position (λ byte. byte == 0) bytes.now }
    ensures within { IfSome result (λ place. place < length bytes.now) }
{
    bytes.iter().position(|b| *b == 0)
}

impl Field for Option<PgBytes> {
    ghost use Rattle.pg_messages.specs.Reading.{value_at};

    ghost field_at = { value_at };

    #[tactic(auto, unfolding(crate::specs::Reading::value_at))]
    fn read(alloc: Global, bytes: &[u8]) -> Result<(Option<PgBytes>, &[u8]), FrameError> {
        let (len, rest) = u32::read(alloc, bytes)?;
        if len == u32::MAX {
            return Ok((None, rest));
        }
        if len > i32::MAX as u32 || rest.len() < len as usize {
            return Err(FrameError::Bad);
        }
        let (value, rest) = rest.split_at(len as usize);
        let value = PgBytes::copy_of(alloc, value)?;
        Ok((Some(value), rest))
    }
}

#[inline(always)]
#[tactic(auto, unfolding(crate::specs::Reading::count_at))]
fn count(bytes: &[u8]) -> Result<(u16, &[u8]), FrameError>
    ensures { Gives (λ x. (x.0, x.1.now)) result (count_at bytes.now) }
{
    if bytes.len() < 2 {
        return Err(FrameError::Bad);
    }
    let (front, rest) = bytes.split_at(2);
    let number = u16::from_be_bytes([front[0], front[1]]);
    if number > i16::MAX as u16 {
        return Err(FrameError::Bad);
    }
    Ok((number, rest))
}

fn items<T: Field + Drop>(
    alloc: Global,
    count: u16,
    bytes: &[u8],
) -> Result<(PgList<T>, &[u8]), FrameError>
    ensures { Gives (λ x. (x.0, x.1.now)) result (items_at T.field_at count bytes.now) }
{
    let mut items = PgList::new(alloc);
    let mut rest = bytes;
    for _ in 0..count {
        let (item, after) = T::read(alloc, rest)?;
        items.push(item)?;
        rest = after;
    }
    Ok((items, rest))
}

/// A count, and as many values.
#[inline(always)]
pub fn list<T: Field + Drop>(alloc: Global, bytes: &[u8]) -> Result<(PgList<T>, &[u8]), FrameError>
    ensures { Gives (λ x. (x.0, x.1.now)) result (list_at T.field_at bytes.now) }
{
    let (count, rest) = count(bytes)?;
    items(alloc, count, rest)
}
