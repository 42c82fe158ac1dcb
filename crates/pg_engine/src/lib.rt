//! The engine that serves one client: it reads a source, feeds a conversation, and counts turns. A
//! session over any handlers is such a conversation.
#![tactic(auto)]

mod conversation;
mod engine;

pub use conversation::Conversation;
pub use engine::{serve, serve_connection, serve_whole};
