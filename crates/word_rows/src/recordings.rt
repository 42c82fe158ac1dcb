//! Recordings that are read and written again.

use recording_text::{ReadError, Recording, read_recording, write_recording};
use row_files::{Fault, hex_words};
use std::alloc::{AllocError, Global};

/// What the reader answers to the bytes of these words.
pub fn recording_answer<'t>(alloc: Global, words: &'t str) -> Result<String, Fault<'t>> {
    let bytes = hex_words(alloc, words)?;
    Ok(read_answer(alloc, bytes.as_slice())?)
}

/// What the reader answers to every front of the bytes of these words.
pub fn fronts_answer<'t>(alloc: Global, words: &'t str) -> Result<String, Fault<'t>> {
    let bytes = hex_words(alloc, words)?;
    Ok(answer_to_fronts(alloc, bytes.as_slice())?)
}

/// What the reader answers to the bytes: `ok` where it reads a recording whose text they are, or
/// its refusal.
fn read_answer(alloc: Global, bytes: &[u8]) -> Result<String, AllocError> {
    match read_recording(alloc, bytes) {
        Ok(recording) => String::from_str(alloc, written_again(alloc, &recording, bytes)?),
        Err(ReadError::Truncated) => String::from_str(alloc, "truncated"),
        Err(ReadError::BadField(place)) => format!(in alloc; "bad field {place}"),
        Err(ReadError::Trailing(place)) => format!(in alloc; "trailing {place}"),
        Err(ReadError::NoMemory) => String::from_str(alloc, "out of memory"),
    }
}

/// Whether the recording's text is these bytes.
fn written_again(
    alloc: Global,
    recording: &Recording,
    bytes: &[u8],
) -> Result<&'static str, AllocError> {
    if recording.calls.len() > u32::MAX as usize {
        return Ok("too many calls");
    }
    let text = write_recording(alloc, recording)?;
    if text.as_slice() == bytes {
        Ok("ok")
    } else {
        Ok("another text")
    }
}

/// `truncated` where the reader answers that to every front of the bytes but the whole; else the
/// first other answer, with the length of its front.
fn answer_to_fronts(alloc: Global, bytes: &[u8]) -> Result<String, AllocError> {
    for len in 0..bytes.len() {
        let answer = read_answer(alloc, &bytes[..len])?;
        if answer.as_str() != "truncated" {
            return format!(in alloc; "front {len}: {answer}");
        }
    }
    String::from_str(alloc, "truncated")
}
