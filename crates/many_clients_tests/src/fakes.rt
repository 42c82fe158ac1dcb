//! Fakes: connections that wait, jobs that are kept, keys, and handlers.

ghost use Rattle.std.specs.Prelude.{◌≡◌};

use conversation_runs::{Sink, SinkError, Source, SourceFailed};
use pg_messages::SecretKey;
use pg_session::{NoopHandler, PgWireServerHandlers};
use pg_streams::{AcceptFailed, Acceptor, Job, KeySource, SpawnFailed, Spawner};
use std::alloc::{AllocError, Global};
use std::collections::VecDeque;

/// An end of a connection whose client sends nothing. It has the connection's number, and counts the
/// bytes that it is sent.
#[derive(Drop)]
pub(crate) struct Silence {
    /// The number.
    pub(crate) number: u64,
    sent: u64,
}

impl Silence {
    /// An end of the connection of this number.
    pub(crate) fn new(number: u64) -> Silence {
        Silence { number, sent: 0 }
    }
}

impl Source for Silence {
    ghost use Rattle.std.specs.Prelude.{None};

    ghost left = { λ _. None };

    ghost reads = { λ _. 0 };

    ghost faults = { λ _. 0 };

    fn receive(&mut self, _into: &mut [u8]) -> Result<usize, SourceFailed> {
        Ok(0)
    }
}

impl Sink for Silence {
    ghost use Rattle.std.specs.Prelude.{None};

    ghost written = { λ _. None };

    ghost faults = { λ _. 0 };

    ghost refused = { λ _. 0 };

    ghost sent = { λ s. s.sent };

    fn send(&mut self, bytes: &[u8]) -> Result<(), SinkError> {
        self.sent = self.sent.saturating_add(bytes.len() as u64);
        Ok(())
    }
}

/// Connections that wait to be accepted, and no others.
#[derive(Drop)]
pub(crate) struct Waiting {
    /// The connections.
    pub(crate) connections: VecDeque<(Silence, Silence)>,
    /// How many were accepted.
    pub(crate) accepted: u64,
    faults: u64,
}

impl Waiting {
    /// These connections wait.
    pub(crate) fn new(connections: VecDeque<(Silence, Silence)>) -> Waiting
        ensures { result.accepted ≡ 0 }
    {
        Waiting {
            connections,
            accepted: 0,
            faults: 0,
        }
    }
}

impl Acceptor for Waiting {
    ghost use Rattle.std.specs.Prelude.{Some};

    type In = Silence;

    type Out = Silence;

    ghost faults = { λ a. a.faults };

    ghost accepted = { λ a. a.accepted };

    ghost coming = { λ a. Some a.connections.items };

    fn accept(&mut self) -> Result<(Silence, Silence), AcceptFailed> {
        let Some(connection) = self.connections.pop_front() else {
            self.faults = self.faults.saturating_add(1);
            return Err(AcceptFailed {});
        };
        self.accepted += 1;
        Ok(connection)
    }
}

/// Jobs that were taken, and are kept.
#[derive(Drop)]
pub(crate) struct Keeping<J> {
    /// The jobs.
    pub(crate) jobs: Vec<J>,
    /// How many were taken.
    pub(crate) started: u64,
    faults: u64,
}

impl<J> Keeping<J> {
    /// No job was taken yet.
    pub(crate) fn new(alloc: Global) -> Keeping<J>
        ensures { result.started ≡ 0 }
    {
        Keeping {
            jobs: Vec::new(alloc),
            started: 0,
            faults: 0,
        }
    }
}

impl<J: Job> Spawner<J> for Keeping<J> {
    ghost use Rattle.std.specs.Prelude.{Some};

    ghost faults = { λ s. s.faults };

    ghost started = { λ s. s.started };

    ghost taken = { λ s. Some s.jobs.items };

    fn start(&mut self, job: J) -> Result<(), SpawnFailed> {
        if self.jobs.push(job).is_err() {
            self.faults = self.faults.saturating_add(1);
            return Err(SpawnFailed {});
        }
        self.started += 1;
        Ok(())
    }
}

/// One key for all connections.
#[derive(Drop)]
pub(crate) struct OneKey {
    /// Where keys take their memory.
    pub(crate) alloc: Global,
}

impl KeySource for OneKey {
    fn next_key(&mut self) -> Result<SecretKey, AllocError> {
        SecretKey::try_new(self.alloc, &[1, 2, 3, 4]).map_err(|_| AllocError)
    }
}

/// Handlers that implement nothing.
#[derive(Drop)]
pub(crate) struct Refusing {
    /// What refuses.
    pub(crate) handler: NoopHandler,
}

impl PgWireServerHandlers for Refusing {
    ghost use Rattle.conversation_table.specs.Noop.{noop_extended, noop_simple, noop_copy};

    type Simple = NoopHandler;

    type Extended = NoopHandler;

    type Copying = NoopHandler;

    ghost told = { λ _. record {
      extended = noop_extended;
      simple = noop_simple;
      copying = noop_copy;
    } };

    fn simple_query_handler(&self) -> &NoopHandler {
        &self.handler
    }

    fn extended_query_handler(&self) -> &NoopHandler {
        &self.handler
    }

    fn copy_handler(&self) -> &NoopHandler {
        &self.handler
    }
}
