//! What came of a command of the program.

use conversation_runs::ServeError;
use pg_client::EndKind;
use relation_files::FileError;

/// What came of a command.
#[derive(Drop)]
pub enum Outcome {
    /// All was done.
    Done,
    /// The words are no command.
    Usage,
    /// The relation file was refused.
    File(FileError),
    /// The pid has a live registration.
    PidTaken,
    /// A client was served, or memory ran out before.
    Conversation(Result<EndKind, ServeError>),
    /// A connection could not be accepted.
    AcceptFault,
    /// The job of a connection could not be started.
    SpawnFault,
}

impl Outcome {
    /// Memory ran out.
    pub(crate) const OUT_OF_MEMORY: Outcome = Outcome::Conversation(Err(ServeError::NoMemory));
}
