//! Cursors in simple queries: DECLARE, FETCH and CLOSE over the portals of a session, and the
//! program that serves them over a relation file.
#![tactic(auto)]

mod outcome;
mod running;
mod telling;

pub use cursor_commands::{CursorCommand, read_cursor};
pub use cursor_serving::serve_cursors_on;
pub use running::run_cursors;
