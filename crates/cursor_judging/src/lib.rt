//! Rows of conversations with cursors: each is served, and a line tells whether its replies, its end
//! and its registry calls are the ones that the row expects. The head of a program's `stdin` has the
//! format.
#![tactic(auto)]

mod judging;
mod row;
mod serving;
mod verdict;

pub use judging::CursorRows;
pub use serving::{Ending, Serving};
