//! Cursors in simple queries: a front of a session, which answers a Query that is a cursor command
//! like the messages that it stands for.
#![tactic(auto)]

mod asking;
mod behind;
mod frames;
mod front;
mod parts;

pub use front::CursorSession;
