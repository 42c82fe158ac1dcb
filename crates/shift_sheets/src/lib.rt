//! The sheets of the schedule: the handlers by which one message is answered.
#![tactic(auto)]

mod answer;
mod parser;
mod responses;
mod sheet;
mod sheets;

pub use answer::Answer;
pub use parser::ShiftParser;
pub use sheet::ShiftSheet;
pub use sheets::{OrderSheets, Sheets};
