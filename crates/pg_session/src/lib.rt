//! The conversation with one client: how each message is answered in each phase, what follows an
//! error, and the session that takes the client's bytes piece by piece.
#![tactic(auto)]

mod messages;
mod session;

pub use conversation_runs::{
    Progress, ServeError, Sink, SinkError, Source, SourceFailed, pieces_join,
};
pub use pg_handlers::{
    CancelDesk, Client, CopyHandler, DeskCall, EndKind, ExtendedQueryHandler, NoopHandler, Outbox,
    PgWireServerHandlers, QueryState, ScriptDesk, SessionError, SimpleQueryHandler, Turn, Turns,
    send_copy_both_response, send_copy_in_response, send_copy_out_response, send_describe_response,
    send_execution_response, send_partial_query_response, send_query_response,
    send_ready_for_query,
};
pub use session::{Session, process_error, process_message};
