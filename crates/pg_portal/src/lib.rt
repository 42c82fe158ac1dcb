//! Statements and portals of a session: how queries are parsed, bound and fetched page by page, and
//! the store that keeps them. It re-exports names of pg_results.
#![tactic(auto)]

mod cell;
mod encoder;
mod laws;
mod mem_store;
mod parameters;
mod portal;
mod store;

pub use cell::{push_cell, push_cell_of_sixteen, push_line_cell};
pub use encoder::DataRowEncoder;
pub use laws::{equal_columns_are_one, two_fetches_are_one, what_is_put_is_got};
pub use mem_store::MemPortalStore;
pub use named_entries::Named;
pub use pg_results::{
    ClientInfo, CopyMaker, CopyResponse, CopySource, DeliveredPage, DescribePortalResponse,
    DescribeResponse, DescribeStatementResponse, FieldInfo, Format, ListCopy, ListRows, Metadata,
    NoopQueryParser, OnDemand, PgWireConnectionState, PgWireError, QueryParser, QueryResponse,
    Response, RowMaker, RowReceiver, RowSource, StoredStatement, Tag, deliver_page, error_of_parts,
    finish_copy_binary, is_blank, is_padding,
};
pub use portal::{FetchResult, Portal, PortalExecutionState};
pub use store::{Entry, PortalStore};
