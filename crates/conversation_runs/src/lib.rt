//! Runs of the conversation, which don't depend on how the client's bytes are cut; the sources of
//! these bytes; the sinks of the replies; why a conversation is given up; and the law that pieces
//! join. What a step of a session does is defined here too, over any table.
#![tactic(auto)]

mod ends;
mod laws;
mod streams;

pub use ends::{Progress, ServeError};
pub use laws::pieces_join;
pub use streams::{Sink, SinkError, Source, SourceFailed};
