//! What queries give: statements and their parsers, columns, rows one by one and page by page, tags,
//! responses and the errors that a client is told.
#![tactic(auto)]

mod client;
mod copy;
mod describe;
mod error;
mod field_info;
mod format;
mod on_demand;
mod page;
mod response;
mod rows;
mod stmt;
mod tag;

pub use client::{ClientInfo, Metadata, PgWireConnectionState};
pub use copy::{CopyResponse, CopySource, ListCopy, finish_copy_binary};
pub use describe::{DescribePortalResponse, DescribeResponse, DescribeStatementResponse};
pub use error::{PgWireError, error_of_parts};
pub use field_info::FieldInfo;
pub use format::Format;
pub use on_demand::{CopyMaker, OnDemand, RowMaker};
pub use page::{DeliveredPage, RowReceiver, deliver_page};
pub use response::{QueryResponse, Response};
pub use rows::{ListRows, RowSource};
pub use stmt::{NoopQueryParser, QueryParser, StoredStatement, is_blank, is_padding};
pub use tag::Tag;
