//! What is done with the recordings of clients.

use recording_text::Recording;
use session_recording::RecordError;
use std::alloc::AllocError;

/// What is done with the recordings of clients.
pub trait Keeper: Drop {
    /// Takes the recording of the client that had this process id, or why there is none.
    fn keep(&self, pid: i32, made: Result<Recording, RecordError>);

    /// The same keeper, for another client. The only error is want of memory.
    fn share(&self) -> Result<Self, AllocError>
    where
        Self: Sized;
}
