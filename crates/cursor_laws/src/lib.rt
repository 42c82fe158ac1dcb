//! Laws of a conversation with cursors, over any handlers.
#![tactic(auto)]

mod laws;

pub use laws::{rows_of_cursors, two_of_three_rows};
