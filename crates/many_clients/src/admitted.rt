//! A client that was taken in, as a job without what it is served.

ghost use Rattle.std.specs.Prelude.{◌≡◌};
ghost use Rattle.std.specs.Arc.{arc_value};

use crate::accept_loop::JobMaker;
use conversation_runs::{Sink, Source};
use pg_cancel::{ConnectionHandle, ConnectionManager};
use pg_streams::Job;
use std::alloc::AllocError;
use std::sync::Arc;

/// A client that was taken in: the registry that it is registered at, its registration, where its
/// bytes come from, where the replies go, and how many turns it has. What it is served is another's
/// choice.
#[derive(Drop)]
pub struct AdmittedClient<S, K> {
    /// The registry.
    pub manager: Arc<ConnectionManager>,
    /// The client's registration.
    pub handle: ConnectionHandle,
    /// Where its bytes come from.
    pub source: S,
    /// Where the replies go.
    pub sink: K,
    /// How many turns there are.
    pub turn_limit: u64,
    pub ghost issued: { handle.issuer ≡ arc_value manager },
}

impl<S: Source + Drop, K: Sink + Drop> Job for AdmittedClient<S, K> {
    ghost use Rattle.many_clients.specs.Registrations.{IsFresh};

    ghost is_fresh = { λ client. IsFresh (S.reads client.source) client.handle };
}

/// Clients that have so many turns each, as [`listen_with`] takes them in.
///
/// [`listen_with`]: crate::listen_with
#[derive(Clone, Copy, Debug, PartialEq, Eq)]
pub struct AdmittedClients {
    /// How many turns each has.
    pub turn_limit: u64,
}

impl<S: Source + Drop, K: Sink + Drop> JobMaker<S, K, AdmittedClient<S, K>> for AdmittedClients {
    ghost use Rattle.std.specs.Prelude.{ℕ};
    ghost use Rattle.many_clients.specs.Clients.{IsClientOf};

    ghost Common = { ℕ };

    ghost common = { λ maker. maker.turn_limit };

    ghost makes = { λ turns handle connection client. IsClientOf turns handle connection client };

    fn share(&self) -> Result<AdmittedClients, AllocError> {
        Ok(*self)
    }

    fn make(
        self,
        manager: Arc<ConnectionManager>,
        handle: ConnectionHandle,
        source: S,
        sink: K,
    ) -> AdmittedClient<S, K> {
        AdmittedClient {
            manager,
            handle,
            source,
            sink,
            turn_limit: self.turn_limit,
        }
    }
}
