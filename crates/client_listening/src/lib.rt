//! What every server of threads shares: what clients share of a service, the threads on which they
//! are served, and how a server listens at a place.
#![tactic(auto)]

mod client_threads;
mod listening;
mod service_threads;
mod shared_service;

pub use client_threads::ClientThreads;
pub use listening::{TURNS, listen_at, take_in_clients};
pub use many_clients::{AdmittedClient, ClientSpawner, JobThreads, ListenError, ServiceJob};
pub use service_threads::ServiceThreads;
pub use shared_service::SharedService;
