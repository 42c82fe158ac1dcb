//! Tests of what takes clients in and serves them, over fakes that tell what they give and take.
#![tactic(auto)]

#[cfg(test)]
mod fakes;
#[cfg(test)]
mod listening_tests;
