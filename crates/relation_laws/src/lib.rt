//! Laws of the server of relations: the cause of each error that it tells.
#![tactic(auto)]

mod laws;

pub use laws::{errors_have_causes, served_states_are_kept};
