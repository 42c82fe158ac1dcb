//! What is kept of bytes that pass: the first ones, as many as there is room for, and the number of
//! all.

ghost use Rattle.std.specs.Prelude.{◌≡◌, ◌≤◌, ◌<◌, ◌+◌, ◌^◌, ◌∷◌, ◌++◌, [], min, take, length, vec_len, vec_capacity, IfOk, OnOk};
ghost use Rattle.session_recording.specs.Kept.{counted};

use pg_client::DeskCall;
use std::alloc::{AllocError, Global};

/// The first of the bytes that passed, as many as there is room for, and the number of all.
#[derive(Drop)]
pub struct FirstBytes {
    /// How many bytes there is room for.
    pub room: usize,
    /// The first bytes.
    pub bytes: Vec<u8>,
    /// The number of all bytes. It stands still at the greatest `u64`.
    pub count: u64,
    pub ghost roomy: { room ≤ vec_capacity bytes },
    pub ghost within: { length bytes.items ≤ room },
    pub ghost measured: { length bytes.items ≡ min room count },
}

impl FirstBytes {
    /// Room for `room` bytes, none of which has passed yet. AllocError: there isn't enough memory.
    pub fn with_room(alloc: Global, room: usize) -> Result<FirstBytes, AllocError>
        ensures room { IfOk result (λ first. first.room ≡ room) }
        ensures bytes { IfOk result (λ first. first.bytes.items ≡ []) }
        ensures count { IfOk result (λ first. first.count ≡ 0) }
        ensures small { OnOk result (room < 2 ^ 63) }
    {
        Ok(FirstBytes {
            room,
            bytes: Vec::with_capacity(alloc, room)?,
            count: 0,
        })
    }

    /// Keeps the front of a piece for which there is room, and counts all of it. It takes no
    /// memory.
    pub fn keep(&mut self, piece: &[u8])
        ensures room { self.new.room ≡ self.old.room }
        ensures bytes { self.new.bytes.items
            ≡ take self.old.room (self.old.bytes.items ++ piece.now) }
        ensures count { self.new.count ≡ counted (self.old.count + length piece.now) }
    {
        let fits = piece.len().min(self.room - self.bytes.len());
        let _kept = self.bytes.extend_from_slice(&piece[..fits]);
        self.count = self.count.saturating_add(piece.len() as u64);
    }
}

/// Keeps a call for which there is room. It takes no memory.
pub(crate) fn keep_call(kept: &mut Vec<DeskCall>, call: DeskCall)
    requires { vec_len kept.old < vec_capacity kept.old }
    ensures { kept.new.items ≡ kept.old.items ++ call ∷ [] }
{
    let _kept = kept.push(call);
}
