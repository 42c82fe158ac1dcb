//! Recordings of sessions over relations, checked against the table.
#![tactic(auto)]

mod comparing;
mod replaying;
mod verdict;

pub use replaying::verify;
pub use verdict::Verdict;
