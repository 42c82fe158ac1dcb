//! What clients are served: a service holds a conversation with each client, and tells the rules of
//! that. One client after another, or many at once, are served by the same service.
#![tactic(auto)]

mod handlers;
mod service;

pub use handlers::HandlerService;
pub use service::Service;
