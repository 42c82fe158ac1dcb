//! Relations that the clients of a listening server share: how they are read from their file, how a
//! client is served by them, and how the program reports what came of listening.
#![tactic(auto)]

mod reporting;
mod service;
mod sharing;

pub use reporting::report_listened;
pub use service::SharedRelations;
pub use sharing::shared_relations;
