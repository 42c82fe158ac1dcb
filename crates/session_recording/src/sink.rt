//! A sink that is recorded.

ghost use Rattle.std.specs.Prelude.{◌≡◌, [], ◌∷◌, ◌++◌, length, IfSome};
ghost use Rattle.std.proofs.Props.{props};
ghost use Rattle.session_recording.specs.Kept.{IsCountedBy, IsSentTo, told_numbers};

use crate::keeping::FirstBytes;
use conversation_runs::{Sink, SinkError};
use std::snapshot::Snapshot;

/// A sink of which the first bytes are kept that the sends had which it answered with Ok, as many as
/// there is room for, and all of these are counted. Contracts see it as the sink that it was made
/// over.
pub struct RecordingSink<'a, K: Sink> {
    /// The sink that is written to.
    pub sink: &'a mut K,
    /// The sink as it was before.
    pub before: Snapshot<K>,
    /// What it was sent since.
    pub kept: FirstBytes,
    /// Whether a send was refused.
    pub has_refused: bool,
    pub ghost recorded: { IfSome (K.written before.value) (λ first. IsSentTo first
        (K.written sink.now) kept.room kept.bytes.items kept.count has_refused) } by { Prim.hlevel
            props },
    pub ghost agreed: { IsCountedBy kept.count has_refused (K.sent before.value) (K.sent sink.now)
        (K.refused before.value) (K.refused sink.now) } by { Prim.hlevel props },
}

impl<'a, K: Sink> RecordingSink<'a, K> {
    /// Records a sink from here on, in room of which nothing is used yet.
    pub fn new(sink: &'a mut K, room: FirstBytes) -> RecordingSink<'a, K>
        requires bytes { room.bytes.items ≡ [] }
        requires count { room.count ≡ 0 }
        ensures same_reference { result.sink.ghost_name ≡ sink.entry.ghost_name }
        ensures sink { result.sink.now ≡ sink.old }
        ensures before { result.before.value ≡ sink.old }
        ensures kept { result.kept ≡ room }
    {
        let before = Snapshot::of(sink);
        RecordingSink {
            sink,
            before,
            kept: room,
            has_refused: false,
        }
    }
}

impl<'a, K: Sink> Sink for RecordingSink<'a, K> {
    ghost written = { λ r. K.written r.sink.now };

    ghost faults = { λ r. K.faults r.sink.now };

    ghost refused = { λ r. K.refused r.sink.now };

    ghost sent = { λ r. K.sent r.sink.now };

    // what was counted before, the sink itself, its room, and what was written before
    ghost origin = { λ r. K.sent r.before.value ∷ K.refused r.before.value ∷ r.sink.ghost_name
        ∷ r.kept.room ∷ length (K.origin r.sink.now)
        ∷ K.origin r.sink.now ++ told_numbers (K.written r.before.value) };

    fn send(&mut self, bytes: &[u8]) -> Result<(), SinkError> {
        match self.sink.send(bytes) {
            Ok(()) => {
                self.kept.keep(bytes);
                Ok(())
            }
            Err(error) => {
                self.has_refused = true;
                Err(error)
            }
        }
    }
}
