//! A counter: the smallest world of handlers that change. The simple query NEXT answers 1, then 2,
//! then 3, and so on.
#![tactic(auto)]

mod answers;
mod counter;
mod laws;
mod rows;

pub use answers::{CounterAnswers, CounterStatement};
pub use counter::Counter;
pub use laws::next_is_the_next_number;
