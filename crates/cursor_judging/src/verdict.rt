//! What differs from what a row expects.

use crate::row::Row;
use crate::serving::Ending;
use conversation_runs::ServeError;
use pg_client::{DeskCall, EndKind};
use row_files::common_len;
use std::alloc::{AllocError, Global};

/// What differs.
#[derive(Clone, Copy)]
pub enum Difference {
    /// The conversation ended with this.
    End(&'static str),
    /// The replies differ from this byte on.
    Replies(usize),
    /// The registry calls differ.
    Calls,
}

/// The first difference between what came of a conversation and what the row expects, if there is
/// one. Where the row has the option `front`, a front of the expected replies is enough; where a
/// write fails, a front of the expected calls is.
pub fn first_difference(
    row: &Row<'_>,
    end: Ending,
    sent: &[u8],
    calls: &[DeskCall],
) -> Option<Difference> {
    let replies = row.replies.as_slice();
    if !replies.starts_with(sent) {
        return Some(Difference::Replies(common_len(sent, replies)));
    }
    if sent.len() < replies.len() && row.option("front").is_none() {
        return Some(Difference::Replies(sent.len()));
    }
    let end = end_name(end);
    if end != row.end {
        return Some(Difference::End(end));
    }
    if !are_calls(calls, row.calls, end == "WriteFault") {
        return Some(Difference::Calls);
    }
    None
}

/// Whether these are the calls that words tell, or the first of them where that is enough.
fn are_calls(calls: &[DeskCall], words: &str, first: bool) -> bool {
    let mut count = 0usize;
    for word in words.split_whitespace() {
        match calls.get(count) {
            None => return first,
            Some(call) if word == call_name(call) => {}
            Some(_) => return false,
        }
        count = count.saturating_add(1);
    }
    count == calls.len()
}

/// The word for a call.
fn call_name(call: &DeskCall) -> &'static str {
    match *call {
        DeskCall::Start => "start",
        DeskCall::Ask(true) => "yes",
        DeskCall::Ask(false) => "no",
        DeskCall::Cancel(_, _, _) => "cancel",
        DeskCall::Narrow => "narrow",
    }
}

/// The word for an end.
fn end_name(end: Ending) -> &'static str {
    match end {
        Ok(EndKind::Terminate) => "Terminate",
        Ok(EndKind::InputEnd) => "InputEnd",
        Ok(EndKind::BadFrame) => "BadFrame",
        Ok(EndKind::Fatal) => "Fatal",
        Ok(EndKind::CancelServed) => "CancelServed",
        Err(ServeError::ReadFault) => "ReadFault",
        Err(ServeError::WriteFault) => "WriteFault",
        Err(ServeError::TurnLimit) => "TurnLimit",
        Err(ServeError::NoMemory) => "NoMemory",
    }
}

/// The case and what differs, as a text.
pub fn finding(alloc: Global, case: usize, found: Difference) -> Result<String, AllocError> {
    match found {
        Difference::End(end) => format!(in alloc; "{case}: ends with {end}"),
        Difference::Replies(place) => {
            format!(in alloc; "{case}: other replies from byte {place} on")
        }
        Difference::Calls => format!(in alloc; "{case}: other registry calls"),
    }
}
