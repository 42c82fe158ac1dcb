//! What a message asks of a server's queries. Handlers that change need it: they do what a message asks
//! before it is answered.
#![tactic(auto)]

mod asking;

pub use asking::{Asked, asked_by};
