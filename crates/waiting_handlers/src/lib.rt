//! Handlers whose queries wait by the clock, so that a server can be tried while a query isn't ready.
#![tactic(auto)]

mod handlers;
mod service;
mod waiting;

pub use handlers::WaitingHandlers;
pub use service::WaitingService;
pub use waiting::Waiting;
