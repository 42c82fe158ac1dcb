//! A spawner of clients at sockets.

ghost use Rattle.std.specs.Prelude.{◌≡◌};

use crate::admitted::AdmittedClient;
use job_threads::Tries;
use pg_streams::{MaybeTls, SpawnFailed, Spawner};

/// How the service of a client at a socket is started. What the client is served is said by who
/// makes it.
pub type StartClient = Box<dyn Fn(AdmittedClient<MaybeTls, MaybeTls>) -> Tries + Drop>;

/// A spawner of clients at sockets. How it starts the service of one is its maker's choice: by
/// [`JobThreads::start_made`], say, for which the maker needs the leave to start threads. Each try
/// that failed is counted, also those of a client whose service was started in the end. It keeps the
/// threads, for whoever waits for them in the end.
///
/// [`JobThreads::start_made`]: job_threads::JobThreads::start_made
#[derive(Drop)]
pub struct ClientSpawner<T> {
    /// The threads.
    pub threads: T,
    start: StartClient,
    started: u64,
    faults: u64,
    ghost ready: { IsAlwaysCallable start },
}

impl<T> ClientSpawner<T> {
    /// A spawner that has started nothing yet.
    pub fn new(threads: T, start: StartClient) -> ClientSpawner<T>
        requires ready { IsAlwaysCallable start }
        ensures started { result.started ≡ 0 }
        ensures faults { result.faults ≡ 0 }
    {
        ClientSpawner {
            threads,
            start,
            started: 0,
            faults: 0,
        }
    }

    /// How many tries to start a service failed. The count stands still at the greatest `u64`.
    pub fn faults(&self) -> u64
        ensures { result ≡ self.now.faults }
    {
        self.faults
    }
}

impl<T> Spawner<AdmittedClient<MaybeTls, MaybeTls>> for ClientSpawner<T> {
    ghost faults = { λ s. s.faults };

    ghost started = { λ s. s.started };

    fn start(&mut self, client: AdmittedClient<MaybeTls, MaybeTls>) -> Result<(), SpawnFailed> {
        let tries = (self.start)(client);
        self.faults = self.faults.saturating_add(tries.failed);
        if tries.is_started {
            self.started += 1;
            Ok(())
        } else {
            self.faults = self.faults.saturating_add(u64::from(tries.failed == 0));
            Err(SpawnFailed {})
        }
    }
}

fn may_be_sent<T: Send>() {}

/// A client at a socket may be sent to another thread.
pub fn clients_cross_threads() {
    may_be_sent::<AdmittedClient<MaybeTls, MaybeTls>>();
}
