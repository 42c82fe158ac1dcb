//! A service whose clients are recorded.

ghost use Rattle.std.specs.Prelude.{◌≡◌};

use crate::keeper::Keeper;
use client_listening::SharedService;
use client_services::Service;
use conversation_runs::{ServeError, Sink, Source};
use pg_client::{CancelDesk, EndKind};
use session_recording::record_service;
use std::alloc::{AllocError, Global};

/// A service whose clients are recorded. Contracts see it as the service that it was made over.
#[derive(Drop)]
pub struct RecordedService<V, B> {
    /// What the clients are served.
    pub inner: V,
    /// What takes their recordings.
    pub keeper: B,
    /// How many bytes of a client, and of the replies, there is room for.
    pub room: usize,
}

impl<V: Service, B: Keeper> Service for RecordedService<V, B> {
    ghost At = { V.At };

    ghost rules = { λ s. V.rules s.inner };

    ghost begins = { λ s. V.begins s.inner };

    ghost also = { λ s. V.also s.inner };

    /// Serves the client, and gives the keeper the recording, or why there is none. Where there is no
    /// memory for the room, the client is served all the same.
    fn serve<D: CancelDesk, S: Source, K: Sink>(
        &self,
        alloc: Global,
        desk: &mut D,
        source: &mut S,
        sink: &mut K,
        turn_limit: u64,
    ) -> Result<EndKind, ServeError> {
        let pid = pid_of(desk);
        let (answer, made) = record_service(
            alloc,
            &self.inner,
            desk,
            source,
            sink,
            turn_limit,
            self.room,
        );
        self.keeper.keep(pid, made);
        answer
    }
}

impl<V: SharedService, B: Keeper> SharedService for RecordedService<V, B> {
    ghost use Rattle.std.specs.Prelude.{ℕ};

    // what the clients of the service share, and the room of their recordings
    ghost Shared = { V.Shared × ℕ };

    ghost shared = { λ s. (V.shared s.inner, s.room) };

    fn share(&self) -> Result<RecordedService<V, B>, AllocError> {
        Ok(RecordedService {
            inner: self.inner.share()?,
            keeper: self.keeper.share()?,
            room: self.room,
        })
    }
}

/// The process id of the client whom a desk knows.
fn pid_of<D: CancelDesk>(desk: &D) -> i32
    ensures { result ≡ (D.told desk.now).registration.0 }
{
    let (pid, _key) = desk.identity();
    pid
}
