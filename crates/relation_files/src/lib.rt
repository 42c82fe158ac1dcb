//! Relation files: texts of lines that tell relations, read into a table of them.
#![tactic(auto)]

mod errors;
mod file;
mod header;
mod lines;
mod reader;
mod reading;
mod row;

pub use errors::{FileError, LineReason};
pub use file::read_relations;
