//! Worlds that connections share, as what clients are served: each client that comes is given handlers
//! of its own, over the one world.
#![tactic(auto)]

mod clients;
mod service;

pub use clients::SharedClients;
pub use service::WorldService;
