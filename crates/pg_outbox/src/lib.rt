//! The outbox of a session: replies that wait to be sent, in chunks.
#![tactic(auto)]

mod chunk;
mod outbox;

pub use chunk::CHUNK;
pub use outbox::Outbox;
