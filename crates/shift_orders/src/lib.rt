//! What the texts of queries mean to a service of shifts, and what they ask with their parameters.
#![tactic(auto)]

mod order;
mod statement;
mod tokens;
mod types;
mod values;

pub use order::{ShiftOrder, order_of};
pub use statement::{Argument, ShiftStatement, parse_statement};
pub use types::parameter_types;
