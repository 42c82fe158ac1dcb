//! A counter that many clients share: the smallest world that connections share. The simple query
//! NEXT answers 1, then 2, then 3, and so on, whichever client asks.
#![tactic(auto)]

mod laws;
mod world;

pub use laws::numbers_are_told_in_order;
pub use world::{Counted, SharedCounter};
