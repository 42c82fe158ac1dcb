//! The handlers that answer a client's messages: those of extended queries, of simple queries and
//! of COPY. The `on_` calls for queries have the rules of the protocol as default bodies.
//! `PolledQuery` is a query that is unready for a number of polls, and then gives its outcome.
#![tactic(auto)]

mod copy;
mod ends;
mod handlers;
mod noop;
mod polled;
mod query;

pub use conversation_table::whole_table_is_lawful;
pub use copy::{CopyHandler, copy_given_up};
pub use handlers::PgWireServerHandlers;
pub use noop::{NoRows, NoopExtendedQuery, NoopHandler, NoopSimpleQuery};
pub use pg_client::{CancelDesk, Client, DeskCall, EndKind, ScriptDesk, SessionError, Turns};
pub use pg_outbox::{CHUNK, Outbox};
pub use pg_replies::{
    send_copy_both_response, send_copy_in_response, send_copy_out_response, send_describe_response,
    send_execution_response, send_partial_query_response, send_query_response,
    send_ready_for_query,
};
pub use polled::PolledQuery;
pub use query::extended::{ExtendedQueryHandler, finish_execute};
pub use query::simple::{SimpleQueryHandler, finish_query};
pub use query::{Begun, QueryState, Turn};
