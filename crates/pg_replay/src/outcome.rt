//! What came of the program's words.

use relation_files::FileError;

/// What came of the program's words.
#[derive(Drop)]
pub enum Outcome {
    /// The words are no order.
    Usage,
    /// The relation file was refused.
    File(FileError),
    /// The recording was written, or the recording is that of a run.
    Done,
    /// The recording is not that of a run.
    Differs,
    /// A read of the client's bytes or of the recording failed.
    ReadFault,
    /// A write failed.
    WriteFault,
    /// All turns were spent.
    TurnLimit,
    /// Memory ran out.
    NoMemory,
    /// The session has too many bytes to be recorded.
    TooLong,
    /// The input is no recording.
    BadRecording,
}
