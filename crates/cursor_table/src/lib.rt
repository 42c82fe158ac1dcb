//! The table of a conversation with cursors in simple queries, and a law of it.
#![tactic(auto)]

mod laws;

pub use laws::cursor_table_is_lawful;
