//! The words of the program rota_report.
#![tactic(auto)]

mod orders;
mod words;

pub use orders::{Order, RotaWords};
pub use words::{file_word, read_order};
