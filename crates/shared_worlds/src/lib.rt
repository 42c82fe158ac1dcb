//! Handlers that change, over a world that connections share. The world lies under one lock. Under it
//! each message is met: the client's handlers look at all that was changed so far, add at most one
//! change, and tell the message's sheet. All changes of all clients are one history, in the proofs
//! alone.
#![tactic(auto)]

mod handlers;
mod locked;
mod world;

pub use handlers::{Shared, SharedHandlers};
pub use world::{Course, SharedWorld};
