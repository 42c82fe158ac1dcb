//! Sessions are recorded, and recordings are replayed and verified: the text of a recording, and the
//! program that records a client over a relation file and verifies a recording.
#![tactic(auto)]

mod input;
mod listening;
mod outcome;
mod running;
mod telling;
mod words;

pub use listening::{Listening, read_listening};
pub use recording_text::{ReadError, Recording, read_recording, write_recording};
pub use running::run_replay;
pub use session_recording::{RecordError, record_session};
pub use session_replay::{Verdict, verify};
pub use words::file_word;
