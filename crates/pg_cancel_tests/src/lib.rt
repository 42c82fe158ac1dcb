//! Tests of the cancel registry: its calls one by one, and its manager between two threads.
#![tactic(auto)]

#[cfg(test)]
mod keys;
#[cfg(test)]
mod registry_tests;
#[cfg(test)]
mod step_gate;
#[cfg(test)]
mod thread_tests;
