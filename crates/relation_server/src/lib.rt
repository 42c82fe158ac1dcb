//! The server of relations of intervals. Clients are served through a shared registry, each
//! connection is a job for a thread of its own, and the program's commands stand on both.
#![tactic(auto)]

mod accept_loop;
mod connection_job;
mod demo;
mod many_clients_program;
mod one_client_program;
mod outcome;
mod places;
mod registered_client;
mod report;
mod spawner;

pub use accept_loop::listen;
pub use connection_job::ConnectionJob;
pub use job_threads::Tries;
pub use many_clients::ListenError;
pub use many_clients_program::run_listen;
pub use one_client_program::run;
pub use places::{serve_place, serve_standard};
pub use registered_client::serve_relations;
pub use relation_files::{FileError, LineReason, read_relations};
pub use relation_serving::{
    Relation, RelationHandler, RelationRows, RelationTable, TableError, built_in_table,
    serve_relations_on,
};
pub use relation_words::{ListenPlace, listen_place};
pub use spawner::{JobThreads, StartJob, ThreadSpawner, jobs_cross_threads};
