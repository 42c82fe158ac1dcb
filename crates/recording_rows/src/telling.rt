//! The answers to a session that is recorded, as a row tells them.

use conversation_runs::ServeError;
use pg_handlers::EndKind;
use recording_text::{Recording, write_recording};
use row_files::push_digits;
use session_recording::RecordError;
use std::alloc::{AllocError, Global};

/// How the session ended, and what came of recording it, with a comma between them.
pub fn answers_told(
    alloc: Global,
    answer: Result<EndKind, ServeError>,
    recorded: &Result<Recording, RecordError>,
) -> Result<String, AllocError> {
    let mut told = String::from_str(alloc, end_told(answer))?;
    told.push_str(", ")?;
    match recorded {
        Ok(recording) => push_recording(alloc, &mut told, recording)?,
        Err(RecordError::TooLong(count)) => write!(told, "too long {count}")?,
        Err(RecordError::Unended) => told.push_str("unended")?,
        Err(RecordError::NoMemory) => told.push_str("no memory")?,
    }
    Ok(told)
}

/// How a session ended, or what it was given up for.
fn end_told(answer: Result<EndKind, ServeError>) -> &'static str {
    match answer {
        Ok(EndKind::Terminate) => "terminate",
        Ok(EndKind::InputEnd) => "input end",
        Ok(EndKind::BadFrame) => "bad frame",
        Ok(EndKind::Fatal) => "fatal",
        Ok(EndKind::CancelServed) => "cancel served",
        Err(ServeError::ReadFault) => "read fault",
        Err(ServeError::WriteFault) => "write fault",
        Err(ServeError::TurnLimit) => "turn limit",
        Err(ServeError::NoMemory) => "no memory",
    }
}

/// Appends the text of a recording, in hexadecimal digits.
fn push_recording(
    alloc: Global,
    told: &mut String,
    recording: &Recording,
) -> Result<(), AllocError> {
    if recording.calls.len() > u32::MAX as usize {
        return told.push_str("too many calls");
    }
    let text = write_recording(alloc, recording)?;
    push_digits(told, text.as_slice())
}
