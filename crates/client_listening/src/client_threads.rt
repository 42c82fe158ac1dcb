//! The threads of clients at sockets, as a server that listens needs them.

use many_clients::{AdmittedClient, ClientSpawner, JobThreads};
use pg_streams::{MaybeTls, Spawner};
use std::sync::Wait;

/// What starts the services of clients at sockets, and waits for them.
pub trait ClientThreads: Spawner<AdmittedClient<MaybeTls, MaybeTls>> {
    /// Waits until each service that was started has ended.
    fn finish<R: Wait>(&self, rt: &R);
}

impl<J: Drop> ClientThreads for ClientSpawner<JobThreads<J>> {
    fn finish<R: Wait>(&self, rt: &R) {
        self.threads.finish(rt);
    }
}
