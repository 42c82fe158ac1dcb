//! Tests of a counter that clients on two threads share. Their order isn't settled, so no row says
//! it.
#![tactic(auto)]

#[cfg(test)]
mod numbers;
#[cfg(test)]
mod thread_tests;
