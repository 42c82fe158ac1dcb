//! Entries under names. The entry under the empty name has a place of its own.
#![tactic(auto)]

mod names;

pub use names::Named;
