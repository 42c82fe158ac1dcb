//! The handlers of a server of relations: a table of them, the parser of their queries, and their
//! rows made on demand.
#![tactic(auto)]

mod columns;
mod copy;
mod copy_line;
mod data_row;
mod errors;
mod handler;
mod named_relations;
mod options;
mod query;
mod row_source;
mod served;
mod shared;
mod simple;
mod statement_lookup;
mod statement_response;
mod style;
mod table;
mod within;
mod words;

pub use copy::RelationCopy;
pub use handler::{RelationHandler, RelationHandlerOver};
pub use named_relations::NamedRelations;
pub use row_source::RelationRows;
pub use served::ServedRelations;
pub use style::SessionStyle;
pub use table::{RelationTable, TableError};
