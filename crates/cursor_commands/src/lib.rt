//! The commands of cursors in simple queries: their texts, the messages that they ask of a session,
//! and the replies to them.
#![tactic(auto)]

mod command;
mod laws;
mod limit;
mod messages;
mod page;
mod rewrite;

pub use command::{CursorCommand, read_cursor};
pub use laws::commands_can_be_sent;
pub use messages::command_messages;
pub use rewrite::{NewReplies, new_replies};
