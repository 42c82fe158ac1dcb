//! A client of relations is served with cursors in simple queries, on any desk: one, or many at once
//! who share the relations.
#![tactic(auto)]

mod serve;
mod service;

pub use serve::serve_cursors_on;
pub use service::CursorService;
