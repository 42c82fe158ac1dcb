//! The words of the command line of the server of relations: which are good, and what they tell.
#![tactic(auto)]

mod commands;
mod file;
mod keys;
mod listening;
mod numbers;

pub use commands::{Command, Load, Service, read_command, read_pid};
pub use file::file_word;
pub use keys::{KeyBytes, read_key};
pub use listening::{listen_count, listen_place, read_bound};
pub use listening_places::ListenPlace;
pub use numbers::read_within;
