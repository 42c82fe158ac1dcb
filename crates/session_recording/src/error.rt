//! Why there is no recording of a session.

/// Why there is no recording of a session.
#[derive(Clone, Copy, Debug, PartialEq, Eq)]
pub enum RecordError {
    /// There was no room for all bytes. The number is how many were read, or how many were sent by
    /// the sends that were answered with Ok, whichever is the greater. It stands still at the
    /// greatest `u64`.
    TooLong(u64),
    /// The session was given up before its end.
    Unended,
    /// There was no memory for the room; or a send was refused, and the session came to its end all
    /// the same, so that it isn't known what the sink has taken.
    NoMemory,
}
