//! Jobs that run beside each other, each on a thread of its own.
#![tactic(auto)]

mod job;
mod limits;
mod threads;

pub use job::{Ended, ThreadJob};
pub use threads::{JobThreads, Tries};
