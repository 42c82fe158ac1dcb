//! Handlers that change, as what clients are served: each client has handlers of its own, over what
//! all of them share.
#![tactic(auto)]

mod clients;
mod service;

pub use clients::MovingClients;
pub use service::MovingService;
