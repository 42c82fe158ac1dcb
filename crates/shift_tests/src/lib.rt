//! Tests of what the queries of a service of shifts mean, and of what they do to a table that
//! clients share.
#![tactic(auto)]

#[cfg(test)]
mod orders;
#[cfg(test)]
mod transactions;
