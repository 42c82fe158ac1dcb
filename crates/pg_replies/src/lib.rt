//! The replies that are appended to a client's outbox: ReadyForQuery, CommandComplete, the
//! descriptions of statements and portals, rows page by page, and the data of a COPY.
#![tactic(auto)]

mod send;

pub use send::{
    push_reply, send_copy_both_response, send_copy_in, send_copy_in_response,
    send_copy_out_response, send_describe_response, send_described, send_done,
    send_execution_response, send_next_page, send_partial_query_response, send_query_response,
    send_ready_for_query, send_told,
};
