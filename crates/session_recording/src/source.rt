//! A source that is recorded.

ghost use Rattle.std.specs.Prelude.{◌≡◌, [], ◌∷◌, ◌++◌, length, IfSome};
ghost use Rattle.std.proofs.Props.{props};
ghost use Rattle.session_recording.specs.Kept.{IsTakenOf, told_numbers};

use crate::keeping::FirstBytes;
use conversation_runs::{Source, SourceFailed};
use std::snapshot::Snapshot;

/// A source of which the first bytes are kept, as many as there is room for, and all are counted.
/// Contracts see it as the source that it was made over.
pub struct RecordingSource<'a, S: Source> {
    /// The source that is read.
    pub source: &'a mut S,
    /// The source as it was before.
    pub before: Snapshot<S>,
    /// What it has given since.
    pub kept: FirstBytes,
    pub ghost recorded: { IfSome (S.left before.value) (λ text. IsTakenOf text (S.left source.now)
        kept.room kept.bytes.items kept.count) } by { Prim.hlevel props },
}

impl<'a, S: Source> RecordingSource<'a, S> {
    /// Records a source from here on, in room of which nothing is used yet.
    pub fn new(source: &'a mut S, room: FirstBytes) -> RecordingSource<'a, S>
        requires bytes { room.bytes.items ≡ [] }
        requires count { room.count ≡ 0 }
        ensures same_reference { result.source.ghost_name ≡ source.entry.ghost_name }
        ensures source { result.source.now ≡ source.old }
        ensures before { result.before.value ≡ source.old }
        ensures kept { result.kept ≡ room }
    {
        let before = Snapshot::of(source);
        RecordingSource {
            source,
            before,
            kept: room,
        }
    }
}

impl<'a, S: Source> Source for RecordingSource<'a, S> {
    ghost left = { λ r. S.left r.source.now };

    ghost reads = { λ r. S.reads r.source.now };

    ghost faults = { λ r. S.faults r.source.now };

    // the source itself, its room, and what it had to give before
    ghost origin = { λ r. r.source.ghost_name ∷ r.kept.room ∷ length (S.origin r.source.now)
        ∷ S.origin r.source.now ++ told_numbers (S.left r.before.value) };

    fn receive(&mut self, into: &mut [u8]) -> Result<usize, SourceFailed> {
        let n = self.source.receive(into)?;
        self.kept.keep(&into[..n]);
        Ok(n)
    }
}
