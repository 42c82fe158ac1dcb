//! Tests of cancels that come while the queries that they mean run: from other connections over TCP,
//! and from another thread than that of a connection over memory. Their order isn't settled, so no
//! row says it. And a client that is served on where the server can't go on.
#![tactic(auto)]

#[cfg(test)]
mod clients;
#[cfg(test)]
mod fault_tests;
#[cfg(test)]
mod memory_tests;
#[cfg(test)]
mod relations;
#[cfg(test)]
mod socket_tests;
