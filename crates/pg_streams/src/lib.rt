//! Sources of a client's bytes and sinks for the replies: in memory, over readers and writers, and
//! at sockets. Acceptors of connections, spawners of their jobs, and sources of their keys.
#![tactic(auto)]

mod accept;
mod acceptor;
mod adapters;
mod keys;
mod memory;
mod socket;

pub use accept::{AcceptFailed, Acceptor, Job, KeySource, SpawnFailed, Spawner};
pub use acceptor::{Listener, Listening, SocketAcceptor};
pub use adapters::{ReaderSource, WriterSink};
pub use keys::RandomKeys;
pub use memory::{MemorySink, MemorySource};
pub use socket::{Counted, MaybeTls};
