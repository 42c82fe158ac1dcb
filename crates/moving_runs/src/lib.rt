//! Runs of a conversation whose handlers change. They meet each message before it is answered, and
//! tell its sheet, by which it is answered. Defined here are the rules of such a conversation, the
//! meetings in turn, and laws of both.
#![tactic(auto)]

mod laws;

pub use laws::{one_sheet_is_the_whole_table, sheet_table_is_lawful};
