//! The relations that tests and measurements use: a table without a file.
#![tactic(auto)]

mod built_in;

pub use built_in::built_in_table;
