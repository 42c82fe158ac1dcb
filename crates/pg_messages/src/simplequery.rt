//! The simple query, and its text as a slice of the frame.

ghost use Rattle.std.specs.Prelude.{◌≡◌, List, ℕ, false, drop, IfSome, IfNone};
ghost use Rattle.pg_messages.specs.declared.frontend.PgWireFrontendMessage.TheVariants as client;
ghost use Rattle.pg_messages.specs.Fields.{string, IsText};
ghost use Rattle.pg_messages.specs.Frames.{IsFrame};
ghost use Rattle.pg_messages.specs.QueryHeaders.{HasQueryHeader};

use crate::codec::FrameError;
use crate::fields::Field;
use crate::headers::typed_len;
use crate::values::PgStr;
use std::alloc::Global;

/// Runs the queries of a text. Protocol, Query: Byte1 `Q`, Int32 length, String query.
#[derive(Drop)]
pub struct Query {
    /// The text.
    pub query: PgStr,
}

impl Field for Query {
    ghost use Rattle.pg_messages.specs.Reading.{query_at};

    ghost field_at = { query_at };

    #[tactic(auto, unfolding(crate::specs::Reading::query_at))]
    fn read(alloc: Global, bytes: &[u8]) -> Result<(Query, &[u8]), FrameError> {
        let (query, rest) = PgStr::read(alloc, bytes)?;
        Ok((Query { query }, rest))
    }
}

/// The text of a Query frame, as a slice of it. The frame is Byte1 `Q`, Int32 length, which counts
/// itself and not the type byte, and String query (protocol, Message Formats: Query). None comes
/// exactly where the bytes are no Query frame: they have another type byte, another length than
/// they tell, more than 1,048,577 bytes in all, no zero byte at the end, one before it, or a text
/// that isn't UTF-8. It takes no memory.
pub fn query_text(frame: &[u8]) -> Option<&str>
    ensures some { IfSome result (λ text.
        IsFrame false frame.now (client.Query (record { query = text.now }))) }
    ensures none { IfNone result ((m : Query) → ¬ IsFrame false frame.now (client.Query m)) }
{
    text_of_string(query_body(frame)?)
}

/// The body of a Query frame. None where the header isn't good, has another type byte, or tells
/// another length than that of the bytes.
fn query_body(frame: &[u8]) -> Option<&[u8]>
    ensures some { IfSome result (λ body.
        HasQueryHeader frame.now × (body.now ≡ drop 5 frame.now)) }
    ensures none { IfNone result (¬ HasQueryHeader frame.now) }
{
    let Ok(Some(len)) = typed_len(frame) else {
        return None;
    };
    if len != frame.len() || frame[0] != b'Q' {
        return None;
    }
    Some(&frame[5..])
}

/// The text of a String that is all of the bytes.
fn text_of_string(bytes: &[u8]) -> Option<&str>
    ensures some { IfSome result (λ text. (bytes.now ≡ string text.now) × IsText text.now) }
    ensures none { IfNone result ((text : List ℕ) → bytes.now ≡ string text → ¬ IsText text) }
{
    let (last, text) = bytes.split_last()?;
    if *last != 0 || text.contains(&0) {
        return None;
    }
    str::from_utf8(text).ok()
}
