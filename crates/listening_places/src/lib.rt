//! Places to listen at, as a program is told them and as they could be bound.
#![tactic(auto)]

mod bound;
mod place;

pub use bound::{BoundPlace, ToldPlace, bind_place, leave_place};
pub use place::ListenPlace;
