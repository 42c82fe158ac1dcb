//! What orders do to a table of shifts that many clients share: each on its own, or several in a
//! transaction.
#![tactic(auto)]

mod doing;
mod laws;
mod outcome;
mod step;
mod transaction;

pub use doing::do_order;
pub use laws::no_two_shifts_clash;
pub use outcome::{Outcome, Refusal};
pub use step::{Step, Steps};
pub use transaction::Transaction;
