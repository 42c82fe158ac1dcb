//! What came of the program's words.

use conversation_runs::ServeError;
use pg_client::EndKind;
use relation_files::FileError;

/// What came of the program's words.
#[derive(Drop)]
pub enum Outcome {
    /// The words are no `serve`.
    Usage,
    /// The relation file was refused.
    File(FileError),
    /// The client was served.
    Conversation(Result<EndKind, ServeError>),
}
