//! Recordings of sessions, and the bytes that they are kept as.
#![tactic(auto)]

mod reading;
mod recording;
mod writing;

pub use reading::read_recording;
pub use recording::{ReadError, Recording};
pub use writing::write_recording;
