//! Many clients at once, whatever they are served: a loop that accepts connections, registers each
//! and starts its job; clients that were taken in; their service through the shared registry; and a
//! spawner that runs it on threads.
#![tactic(auto)]

mod accept_loop;
mod admitted;
mod registered;
mod service_job;
mod spawner;

pub use accept_loop::{JobMaker, ListenError, admit, listen_with};
pub use admitted::{AdmittedClient, AdmittedClients};
pub use client_services::{HandlerService, Service};
pub use job_threads::{Ended, JobThreads, ThreadJob, Tries};
pub use registered::{leave, serve_registered};
pub use service_job::ServiceJob;
pub use spawner::{ClientSpawner, StartClient, clients_cross_threads};
