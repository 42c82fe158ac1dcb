//! Tests of a service that clients share, on threads of the machine.
#![tactic(auto)]

#[cfg(test)]
mod clients;
#[cfg(test)]
mod left_tests;
#[cfg(test)]
mod refusing;
#[cfg(test)]
mod stage;
#[cfg(test)]
mod threads_tests;
