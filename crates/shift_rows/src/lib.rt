//! Shifts as rows: whose a shift is, when it starts and how long it lasts.
#![tactic(auto)]

mod cells;
mod fields;
mod shift_rows;
mod shown;

pub use fields::columns;
pub use shift_rows::ShiftRows;
pub use shown::ShownShifts;

#[cfg(test)]
mod tests;
