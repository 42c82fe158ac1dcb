//! Serves one client at a socket, with the shared cancel registry: the desk over a handle of the
//! registry, a desk that fails as it is told, and the calls that serve a connection. It re-exports
//! the names of pg_engine and of pg_streams.
#![tactic(auto)]

mod desk;
mod flaky;
mod process;

pub use desk::HandleDesk;
pub use flaky::FlakyDesk;
pub use pg_engine::{Conversation, serve, serve_connection, serve_whole};
pub use pg_streams::{
    AcceptFailed, Acceptor, Counted, Job, KeySource, Listener, Listening, MaybeTls, MemorySink,
    MemorySource, RandomKeys, ReaderSource, SocketAcceptor, SpawnFailed, Spawner, WriterSink,
};
pub use process::{process_socket, process_socket_unix};
