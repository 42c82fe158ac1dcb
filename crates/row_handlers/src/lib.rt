//! Handlers that answer each query with rows. The trait [`RowAnswers`] says what queries mean and
//! which rows they have, and [`RowHandlers`] does the rest.
#![tactic(auto)]

mod answers;
mod columns;
mod errors;
mod handlers;
mod parser;
mod response;

pub use answers::RowAnswers;
pub use columns::{column, one_row, put_column};
pub use errors::user_error;
pub use handlers::RowHandlers;
pub use parser::RowParser;
pub use response::begun;
