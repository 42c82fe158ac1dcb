//! Serves a client of relations on any desk: the engine over the handlers of relations. It
//! re-exports the names that a server of relations without a file needs.
#![tactic(auto)]

mod laws;
mod serve;

pub use built_in_relations::built_in_table;
pub use laws::whole_frames_decide;
pub use relation_handlers::{RelationHandler, RelationRows, RelationTable, TableError};
pub use relation_tables::Relation;
pub use serve::serve_relations_on;
