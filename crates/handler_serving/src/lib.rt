//! A program over any handlers: it serves the client on standard input, or the clients that come to
//! a port of this machine or to a Unix socket, each on a thread of its own.
#![tactic(auto)]

mod listening;
mod one_client;
mod orders;
mod program;
mod server;
mod telling;

pub use client_listening::{AdmittedClient, ClientSpawner, ClientThreads};
pub use one_client::{serve_client, serve_one};
pub use orders::{Order, order_of};
pub use program::{run_program, run_service, run_threads};
pub use server::{HandlerJob, HandlerServer};
