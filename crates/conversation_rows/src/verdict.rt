//! What differs from what is expected of a conversation.

use crate::finding::Difference;
use crate::fronts::Front;
use crate::script::Script;
use crate::serving::{Ending, Place};
use pg_session::{DeskCall, EndKind, ServeError};
use row_files::common_len;

/// How many there may be.
#[derive(Clone, Copy)]
pub struct Between {
    pub least: usize,
    pub most: usize,
}

impl Between {
    /// Just this many.
    pub fn just(count: usize) -> Between {
        Between {
            least: count,
            most: count,
        }
    }

    fn has(self, count: usize) -> bool {
        self.least <= count && count <= self.most
    }
}

/// What is expected of a conversation: its end, how many bytes of the replies are written, and how
/// many of the registry's calls are made.
#[derive(Clone, Copy)]
pub struct Expected<'t> {
    pub end: &'t str,
    pub written: Between,
    pub calls: Between,
}

/// What is expected of a conversation that comes as far as this front.
pub fn expected_at<'t>(end: &'t str, front: Front) -> Expected<'t> {
    Expected {
        end,
        written: Between {
            least: front.sure,
            most: front.replies,
        },
        calls: Between::just(front.calls),
    }
}

/// The first difference between what came of a conversation and what is expected, if there is one.
/// Another end is told only where what was written and called is a front of the conversation. No
/// write may be empty. The writes must be as long as the words tell, where there are words.
pub fn difference(
    script: &Script<'_>,
    end: Ending,
    place: &Place,
    expected: Expected<'_>,
    writes: Option<&str>,
) -> Option<Difference> {
    let sent = place.sink.sink.bytes();
    let calls = place.desk.calls();
    let found = other_content(script, sent, calls);
    if found.is_some() {
        return found;
    }
    let found = other_extent(end_name(end), sent.len(), calls.len(), expected);
    if found.is_some() {
        return found;
    }
    other_writes(place.sink.lengths.as_slice(), writes)
}

/// Where what was sent or called is no front of the conversation.
fn other_content(script: &Script<'_>, sent: &[u8], calls: &[DeskCall]) -> Option<Difference> {
    let replies = script.replies.as_slice();
    if !replies.starts_with(sent) {
        return Some(Difference::Replies(common_len(sent, replies)));
    }
    if !script.calls.as_slice().starts_with(calls) {
        return Some(Difference::Calls);
    }
    None
}

/// Where the end, the number of bytes or the number of calls isn't the expected one.
fn other_extent(
    ended: &'static str,
    sent: usize,
    calls: usize,
    expected: Expected<'_>,
) -> Option<Difference> {
    if ended != expected.end {
        return Some(Difference::End(ended));
    }
    if !expected.written.has(sent) {
        return Some(Difference::Replies(sent));
    }
    if !expected.calls.has(calls) {
        return Some(Difference::Calls);
    }
    None
}

/// Where a write is empty, or the writes have other lengths than the words tell.
fn other_writes(lengths: &[usize], writes: Option<&str>) -> Option<Difference> {
    let are_told = match writes {
        None => true,
        Some(words) => are_lengths(lengths, words),
    };
    if lengths.contains(&0) || !are_told {
        Some(Difference::Writes)
    } else {
        None
    }
}

/// Whether the writes are as long as the words tell.
fn are_lengths(lengths: &[usize], words: &str) -> bool {
    let mut count = 0usize;
    for word in words.split_whitespace() {
        if word.parse::<usize>().ok() != lengths.get(count).copied() {
            return false;
        }
        count = count.saturating_add(1);
    }
    count == lengths.len()
}

/// The word for an end.
fn end_name(end: Ending) -> &'static str {
    match end {
        Ok(EndKind::Terminate) => "Terminate",
        Ok(EndKind::InputEnd) => "InputEnd",
        Ok(EndKind::BadFrame) => "BadFrame",
        Ok(EndKind::Fatal) => "Fatal",
        Ok(EndKind::CancelServed) => "CancelServed",
        Err(ServeError::ReadFault) => "ReadFault",
        Err(ServeError::WriteFault) => "WriteFault",
        Err(ServeError::TurnLimit) => "TurnLimit",
        Err(ServeError::NoMemory) => "NoMemory",
    }
}
