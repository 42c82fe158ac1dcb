//! The engine over handlers that change: it reads a source, feeds a conversation whose messages are
//! met, and counts turns. And a law: handlers that never change are a case.
#![tactic(auto)]

mod engine;
mod laws;

pub use engine::{serve, serve_moving};
pub use laws::unchanging_handlers;
