//! The startup phase of a conversation.
#![tactic(auto)]

mod startup;

pub use startup::on_startup_phase;
