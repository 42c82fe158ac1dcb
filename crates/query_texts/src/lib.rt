//! Texts of queries: what is ignored around them, and their words. Whitespace is the bytes 09 to 0D
//! and 20.
#![tactic(auto)]

mod trimming;
mod words;

pub use trimming::trimmed;
pub use words::first_word;
