//! One history of changes that threads share. It only grows, and it exists in the proofs alone: no
//! change of it is stored. One value, the writer, knows it whole and adds to it; it lies under a lock,
//! with what the changes have led to. Fronts are beginnings of it that were seen, and any thread may
//! have one.
#![tactic(auto)]

mod book;
mod front;
mod legal;
mod seat;
mod writer;

pub use book::{Book, Naming, Opened};
pub use front::Front;
pub use legal::History;
pub use writer::Writer;
