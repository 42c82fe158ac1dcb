//! Rotas and clashes as lines of text, and their way to a sink.
#![tactic(auto)]

mod lines;
mod reports;
mod writing;

pub use lines::{put_clash, put_end, put_step};
pub use reports::{ReportError, report};
pub use writing::write_clashes;
