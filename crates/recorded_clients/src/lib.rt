//! Clients that are recorded while they are served. A keeper takes each recording; one of them writes
//! each to a file of a folder.
#![tactic(auto)]

mod folder;
mod keeper;
mod service;
mod unkept;

pub use folder::{FolderKeeper, keepers_cross_threads};
pub use keeper::Keeper;
pub use service::RecordedService;
pub use unkept::Unkept;
