//! What a replay says of a recording.

use pg_handlers::EndKind;

/// What the replay of a recording says of it: the first of calls, replies and end that differs.
#[derive(Clone, Copy, Debug, PartialEq, Eq)]
pub enum Verdict {
    /// The recorded calls, replies and end are those of the replay.
    Same,
    /// The calls of the registry differ first at this place, or one list of them has ended there.
    Calls(u64),
    /// The bytes of the replies differ first at this place, or those of one side have ended there.
    Replies(u64),
    /// The replay comes to this end, which isn't the recorded one.
    End(EndKind),
}
