//! Tests of the engine's edges: what no row of a table program can say. Who accepts connections and
//! where keys come from, adapters over readers and writers that fail, a cancel by another connection,
//! calls that a session makes in another way, and calls that no conversation over relations makes.
#![tactic(auto)]

mod examples;

pub use examples::nothing_is_executed_before_sync;

#[cfg(test)]
mod acceptor_tests;
#[cfg(test)]
mod adapter_tests;
#[cfg(test)]
mod copy_tests;
#[cfg(test)]
mod held_tests;
#[cfg(test)]
mod key_tests;
#[cfg(test)]
mod rare_tests;
#[cfg(test)]
mod send_tests;
