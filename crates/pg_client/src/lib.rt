//! A client of a session, as handlers see it; its desk at the cancel registry; its turns; and how
//! its conversation ends.
#![tactic(auto)]

mod client;
mod desk;
mod ends;

pub use client::Client;
pub use desk::{CancelDesk, DeskCall, ScriptDesk};
pub use ends::{EndKind, SessionError, Turns};
