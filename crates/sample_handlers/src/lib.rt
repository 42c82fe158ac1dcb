//! Handlers of a few sample queries, each with another kind of response: rows, errors among them,
//! COPY of each direction, and commands.
#![tactic(auto)]

mod answer;
mod columns;
mod copy;
mod copying;
mod errors;
mod handler;
mod handlers;
mod meaning;
mod parser;
mod rows;

pub use copy::SampleCopy;
pub use copying::SampleCopying;
pub use handler::SampleHandler;
pub use handlers::SampleHandlers;
pub use meaning::SampleStatement;
pub use parser::SampleParser;
