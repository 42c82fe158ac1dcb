//! The cancel registry: who is connected under which process id and secret key, and whose query was
//! canceled.
#![tactic(auto)]

mod entries;
mod handle;
mod history;
mod holders;
mod manager;
mod roster;
mod seat;
mod turn;

pub use entries::{Entry, RegistryAnswer, RegistryCall};
pub use handle::{ConnectionHandle, Note};
pub use history::Registry;
pub use manager::{ConnectionManager, Door, RegisterError};

fn may_be_sent<T: Send>() {}

fn may_be_shared<T: Send + Sync>() {}

/// Threads may share a manager. A handle, a door and a note may be sent to another thread.
pub fn crosses_threads() {
    may_be_shared::<ConnectionManager>();
    may_be_sent::<ConnectionHandle>();
    may_be_sent::<Door>();
    may_be_sent::<Note>();
}
