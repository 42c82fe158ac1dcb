//! Tests of what no row of a table program and no contract can say of a server of relations: jobs,
//! threads and sockets, and calls that no conversation makes. Conversations are rows of programs of
//! their own.
#![tactic(auto)]

mod examples;

pub use examples::first_path_is_core;

#[cfg(test)]
mod clients;
#[cfg(test)]
mod job_tests;
#[cfg(test)]
mod parser_tests;
#[cfg(test)]
mod relations;
#[cfg(test)]
mod socket_tests;
