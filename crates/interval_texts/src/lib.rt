//! The intervals that clients give: as a text in one of PostgreSQL's four styles, or as sixteen bytes
//! in binary.
#![tactic(auto)]

mod reading;

pub use reading::{read_in_format, read_interval};
