//! A table of shifts in memory: whose they are, when they start and how long they last. No two
//! shifts of one name overlap.
#![tactic(auto)]

mod name;
mod place;
mod shift;
mod table;

pub use name::{NameError, ShiftName};
pub use shift::{Shift, span_of};
pub use table::{BookError, ShiftTable, UnknownShift};

#[cfg(test)]
mod tests;
